//! The words of `bill`, and what they ask for.

use crate::asked::BillOrders;
use crate::help;
use clap::{Arg, ArgAction, ArgMatches, Command};
use share_billing::Form;
use std::alloc::{AllocError, Global};

/// The words of `bill`.
pub fn bill_command<'a>(alloc: Global) -> Result<Command<'a>, AllocError> {
    let csv = Arg::new(alloc, "csv")
        .long("csv")
        .help("print the bill as CSV, without sums")
        .action(ArgAction::SetTrue);
    let json = Arg::new(alloc, "json")
        .long("json")
        .help("print the bill as a line of JSON, without sums")
        .action(ArgAction::SetTrue)
        .conflicts_with("csv")?;
    let books = Arg::new(alloc, "book")
        .value_name("FILE")
        .help("the text of a book, of either kind")
        .num_args(1..)
        .action(ArgAction::Append)
        .required(true);
    Command::new(alloc, "bill")
        .about("bills what the tenants of books sent")
        .after_long_help(help::BOOKS)
        .arg(csv)?
        .arg(json)?
        .arg(books)
}

// The form of a bill.
fn form(bill: &ArgMatches<'_>) -> Form {
    if bill.get_flag("csv") {
        Form::Csv
    } else if bill.get_flag("json") {
        Form::Json
    } else {
        Form::Table
    }
}

/// The request in the words of `bill`.
pub fn bill_orders<'a>(alloc: Global, bill: &ArgMatches<'a>) -> Result<BillOrders<'a>, AllocError> {
    let mut files = Vec::new(alloc);
    if let Some(books) = bill.get_strs("book") {
        for book in books {
            files.push(*book)?;
        }
    }
    Ok(BillOrders {
        files,
        form: form(bill),
    })
}
