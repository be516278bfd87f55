//! Orders, read from their lines.
ghost use Rattle.std.specs.Prelude.{◌≡◌};
ghost use Rattle.share_orders.specs.Orders.{amend_of, at_end, named_of, order_by, order_in};
ghost use Rattle.share_orders.specs.declared.orders.Order.TheVariants.{Hold, Resume};

use share_base::Name;
use share_text::Words;

/// The order of a control line.
#[derive(Clone, Copy, Debug, PartialEq, Eq)]
pub enum Order {
    /// The report of the open book.
    Report,
    /// The state of the gateway.
    Status,
    /// Holds a tenant.
    Hold(Name),
    /// Ends the hold of a tenant.
    Resume(Name),
    /// Gives a grant, numbered from 1, of a tenant or a currency another amount.
    Amend {
        name: Name,
        number: u64,
        amount: u64,
    },
    /// Closes the book and opens the next one.
    Rotate,
    /// Reads the plan anew.
    Reload,
    /// Ends the gateway.
    End,
}

/// The order that a line spells, without its line feed. `None` if it spells none.
pub fn read_order(line: &[u8]) -> Option<Order>
    ensures { result ≡ order_in line.now }
{
    let mut words = Words::of(line);
    let keyword = words.next()?;
    order_of(keyword, &mut words)
}

// The order of a keyword and the words after it.
fn order_of(keyword: &[u8], words: &mut Words<'_>) -> Option<Order>
    ensures { result ≡ order_by keyword.now words.old }
{
    if keyword == b"report".as_slice() {
        at_end(words, Order::Report)
    } else if keyword == b"status".as_slice() {
        at_end(words, Order::Status)
    } else if keyword == b"hold".as_slice() {
        hold(words)
    } else if keyword == b"resume".as_slice() {
        resume(words)
    } else if keyword == b"amend".as_slice() {
        amend(words)
    } else if keyword == b"rotate".as_slice() {
        at_end(words, Order::Rotate)
    } else if keyword == b"reload".as_slice() {
        at_end(words, Order::Reload)
    } else if keyword == b"end".as_slice() {
        at_end(words, Order::End)
    } else {
        None
    }
}

fn hold(words: &mut Words<'_>) -> Option<Order>
    ensures { result ≡ named_of Hold words.old }
{
    let name = words.name()?;
    at_end(words, Order::Hold(name))
}

fn resume(words: &mut Words<'_>) -> Option<Order>
    ensures { result ≡ named_of Resume words.old }
{
    let name = words.name()?;
    at_end(words, Order::Resume(name))
}

fn amend(words: &mut Words<'_>) -> Option<Order>
    ensures { result ≡ amend_of words.old }
{
    let name = words.name()?;
    let number = words.number()?;
    let amount = words.number()?;
    at_end(
        words,
        Order::Amend {
            name,
            number,
            amount,
        },
    )
}

// The order, if no word is left.
fn at_end(words: &Words<'_>, order: Order) -> Option<Order>
    ensures { result ≡ at_end words.now order }
{
    if words.is_end() { Some(order) } else { None }
}
