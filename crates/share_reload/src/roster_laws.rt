//! Laws of every roster. A function here does nothing: its contract is a law, which is proved with it.
ghost use Rattle.std.specs.Prelude.{◌≡◌, ◌↔◌, [], List, Contains};
ghost use Rattle.share_gateway.specs.Plan.{PlanView, TenantView};
ghost use Rattle.share_reload.specs.Rosters.{AreAdmitted};

/// Take plans that are admitted to a roster one after the other, the first when it is empty. Two tenants of any of them
/// have one name if and only if they have one flow number. So a name keeps its number and a number its name, while its
/// tenant is there and when it comes again.
pub fn names_keep_their_numbers()
    ensures { (ps : List PlanView) → AreAdmitted [] ps
        → (p q : PlanView) → Contains ps p → Contains ps q
        → (t u : TenantView) → Contains p.tenants t → Contains q.tenants u
        → ((t.name ≡ u.name) ↔ (t.flow ≡ u.flow)) }
{}
