//! The name of a link.
use std::marker::Brand;

/// Names a link by its queue: what carries the name belongs to the one link whose intake and ends carry it. Callers are
/// generic in the name; it is chosen where a link is made.
pub trait LinkBrand {
    ghost use Rattle.share_ingress.specs.Names.{LinkName};

    ghost link: { LinkName };
}

impl LinkBrand for Brand {
    ghost use Rattle.share_ingress.specs.Names.{no_link};

    ghost link = { no_link };
}
