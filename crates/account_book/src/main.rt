//! An account book, the example of a program that links the database. Its word is the folder of the book, its lines are
//! `open ACCOUNT AMOUNT`, `pay FROM TO AMOUNT` and `show ACCOUNT`.
#![tactic(auto)]

mod book;

use anyhow::{Context, Result, bail};
use book::{balance, open, pay};
use database::Database;
use file_site::FileSite;
use site::{Geometry, Site};
use std::env;

const SIZES: Geometry = Geometry {
    pages: 16,
    groups: 8,
    blocks: 64,
};

// Carries out a line, and answers the balance of its account.
fn carry_out<S: Site + Drop>(book: &mut Database<S>, line: &str) -> Result<u64> {
    let mut words = line.split_whitespace();
    let word = words.next();
    let mut number = || words.next()?.parse::<u32>().ok();
    let account = number().context("no such line")?;
    match (word, number(), number()) {
        (Some("open"), Some(amount), None) => open(book, account, amount as u64)?,
        (Some("pay"), Some(to), Some(amount)) => pay(book, account, to, amount as u64)?,
        (Some("show"), None, None) => {}
        _ => bail!("no such line"),
    }
    balance(book.get(account)?)
}

fn main(rt: HostRuntime) -> Result<()> {
    let mut words = env::args(&rt)?.skip(1);
    let (Some(path), None) = (words.next(), words.next()) else {
        bail!("its word is the folder of the book");
    };
    let files = FileSite::open_or_make(&rt, rt.alloc(), path.as_str(), &SIZES)?;
    let mut book = match Database::open(rt.alloc(), files, 64) {
        Ok(book) => book,
        Err(left) => bail!("the files of {path} hold no book: {}", left.stop),
    };
    for line in rt.lines(rt.alloc()) {
        match carry_out(&mut book, &line?) {
            Ok(balance) => println!(rt; "{balance}")?,
            Err(trouble) => println!(rt; "{trouble}")?,
        }
    }
    Ok(())
}
