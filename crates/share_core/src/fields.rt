//! The bounds that the types of commands and arrivals give their fields: they are those that a line can spell.
ghost use Rattle.std.specs.Prelude.{◌≡◌, true};
ghost use Rattle.std.specs.List.{list_all};
ghost use Rattle.share_base.specs.declared.version.Version.TheVariants.{Two};
ghost use Rattle.share_model.specs.link.Fields.{IsName, IsNumber, is_byte, IsBody, HasCommandFields};

use share_base::{Body, Command, Name};

/// The fields of a command.
pub fn of_command(command: &Command)
    ensures { HasCommandFields command.now }
{
    match command {
        Command::MakeCurrency(name) => of_name(name),
        Command::RemoveCurrency(name) => of_name(name),
        Command::MakeTicket { amount, currency } => of_both(*amount, currency),
        Command::RemoveTicket(ticket) => of_number(*ticket),
        Command::FundCurrency { ticket, currency } => of_both(*ticket, currency),
        Command::FundFlow { ticket, flow } => of_both(*ticket, flow),
        Command::Unfund(ticket) => of_number(*ticket),
        Command::OpenFlow {
            name,
            limit,
            tariff,
        } => {
            of_both(*limit, name);
            of_both(*tariff, name);
        }
        Command::CloseFlow(name) => of_name(name),
        Command::Hold(name) => of_name(name),
        Command::Resume(name) => of_name(name),
        Command::Amend { ticket, amount } => {
            of_number(*ticket);
            of_number(*amount);
        }
    }
}

fn of_number(number: u64)
    ensures { IsNumber number }
{}

fn of_name(name: &Name)
    ensures { IsName name.now }
{
    let _ = name.as_bytes();
}

fn of_both(number: u64, name: &Name)
    ensures number { IsNumber number }
    ensures name { IsName name.now }
{
    of_number(number);
    of_name(name);
}

/// The fields of an arrival, whose payload a frame of version 2 carries.
pub fn of_arrival(flow: &Name, body: &Body)
    ensures { IsName flow.now × IsBody Two body.now.payload }
{
    let _ = flow.as_bytes();
    of_bytes(body.as_slice());
}

fn of_bytes(bytes: &[u8])
    ensures { list_all is_byte bytes.now ≡ true }
{}
