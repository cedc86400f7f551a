// Accounts: each is a record that has its balance. A payment is a transaction, so that a crash leaves both balances as
// they were, or both as they are to be.
ghost use Rattle.account_book.specs.Payments.{MakesCalls, MakesOneCommit};

use anyhow::{Context, Result, bail};
use database::{Database, calls_are_durable};
use record_model::{Octets, Reply};
use site::Site;

/// The balance that an answer tells; an account without a value has none.
pub fn balance(reply: Reply) -> Result<u64> {
    match reply {
        Reply::Value(value) => Ok(u64::from_be_bytes(value.as_slice().try_into()?)),
        Reply::Nothing => Ok(0),
        _ => bail!("refused"),
    }
}

fn done(reply: Reply) -> Result<()> {
    match reply {
        Reply::Done | Reply::Committed(_) => Ok(()),
        _ => bail!("refused"),
    }
}

fn value_of(amount: u64) -> Octets {
    Octets::from_slice(&amount.to_be_bytes()).unwrap()
}

/// Sets the balance of an account.
pub fn open<S: Site + Drop>(book: &mut Database<S>, account: u32, amount: u64) -> Result<()>
    ensures one { MakesOneCommit book.old book.new }
{
    calls_are_durable();
    done(book.set(account, &value_of(amount))?)
}

// Moves an amount, in a transaction that has begun.
fn transfer<S: Site + Drop>(book: &mut Database<S>, from: u32, to: u32, amount: u64) -> Result<()>
    ensures calls { MakesCalls 0 book.old book.new }
{
    let own = balance(book.read(0, from)?)?;
    let left = own.checked_sub(amount).context("no such amount")?;
    done(book.write(0, from, &value_of(left))?)?;
    let other = balance(book.read(0, to)?)?;
    let more = other.checked_add(amount).context("no such amount")?;
    done(book.write(0, to, &value_of(more))?)
}

/// Moves an amount from one account to another.
pub fn pay<S: Site + Drop>(book: &mut Database<S>, from: u32, to: u32, amount: u64) -> Result<()>
    ensures one { MakesOneCommit book.old book.new }
{
    calls_are_durable();
    done(book.begin(0)?)?;
    if let Err(trouble) = transfer(book, from, to, amount) {
        book.abort(0)?;
        return Err(trouble);
    }
    done(book.commit(0)?)
}
