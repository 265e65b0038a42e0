//! What is told of each call, in values that have no bytes.
ghost use Rattle.std.specs.Prelude.{◌≡◌, ℕ, [], ◌∷◌, length, Some, option_and_then};
ghost use Rattle.std.specs.Result.{result_err};
ghost use Rattle.lethe_base.specs.declared.call.Call as calls;
ghost use Rattle.lethe_base.specs.declared.call.Call.TheVariants.{Tick};
ghost use Rattle.lethe_core.specs.Asked.{Makes};
ghost use Rattle.lethe_engine.specs.ChangeRows.{call_of};
ghost use Rattle.lethe_store.specs.Diary.{spent_by};
ghost use Rattle.lethe_store.specs.Entries.{did_by, entries_of, failed_by};
ghost use Rattle.lethe_store.specs.Rows.{entries_in_row};
ghost use Rattle.lethe_store.specs.Ticks.{ticked_by};
ghost use Rattle.lethe_store.specs.declared.entry.Mark.TheVariants.{Made, Released};

use crate::entry::{Entry, Mark};
use lethe_base::{Call, Did, Refused};
use lethe_engine::{Asked, Ticked};
use lethe_turn::{Names, Told};
use std::collections::VecDeque;
use std::marker::Brand;

fn named_call<N: Names<Call>>(asked: &Asked) -> Told<Call>
    requires { N.named ≡ call_of asked.now ∷ [] }
    ensures { result.items ≡ call_of asked.now ∷ [] }
{
    Told::list::<N>()
}

/// The call that a change is, told before the change is moved into it.
pub(crate) fn told_call(asked: &Asked) -> Told<Call>
    ensures { result.items ≡ call_of asked.now ∷ [] }
{
    named_call::<Brand>(asked)
}

fn named_tick<N: Names<Call>>(to: u64) -> Told<Call>
    requires { N.named ≡ Tick to ∷ [] }
    ensures { result.items ≡ Tick to ∷ [] }
{
    Told::list::<N>()
}

/// The call that a tick is.
pub(crate) fn told_tick(to: u64) -> Told<Call>
    ensures { result.items ≡ Tick to ∷ [] }
{
    named_tick::<Brand>(to)
}

fn named_made<N: Names<Mark>>(number: u64, limit: u64) -> Told<Mark>
    requires { N.named ≡ Made number limit ∷ [] }
    ensures { result.items ≡ Made number limit ∷ [] }
{
    Told::list::<N>()
}

/// The mark of a pin that was made.
pub(crate) fn told_made(number: u64, limit: u64) -> Told<Mark>
    ensures { result.items ≡ Made number limit ∷ [] }
{
    named_made::<Brand>(number, limit)
}

fn named_refusal<N: Names<Mark>>(why: &Refused) -> Told<Mark>
    requires { N.named ≡ spent_by (Some why.now) }
    ensures { result.items ≡ spent_by (Some why.now) }
{
    Told::list::<N>()
}

/// That numbers are used up, where a call is refused for that.
pub(crate) fn told_refusal(why: &Refused) -> Told<Mark>
    ensures { result.items ≡ spent_by (Some why.now) }
{
    named_refusal::<Brand>(why)
}

fn named_answer<N: Names<Mark>>(answer: &Result<u64, Refused>) -> Told<Mark>
    requires { N.named ≡ spent_by (result_err answer.now) }
    ensures { result.items ≡ spent_by (result_err answer.now) }
{
    Told::list::<N>()
}

/// The marks of a change that was answered so.
pub(crate) fn told_answer(answer: &Result<u64, Refused>) -> Told<Mark>
    ensures { result.items ≡ spent_by (result_err answer.now) }
{
    named_answer::<Brand>(answer)
}

fn named_released<N: Names<Mark>>(number: u64) -> Told<Mark>
    requires { N.named ≡ Released number ∷ [] }
    ensures { result.items ≡ Released number ∷ [] }
{
    Told::list::<N>()
}

/// The mark of a pin that is let go.
pub(crate) fn told_released(number: u64) -> Told<Mark>
    ensures { result.items ≡ Released number ∷ [] }
{
    named_released::<Brand>(number)
}

fn named_ticked<N: Names<Mark>>(begun: bool, answer: &Result<Ticked, Refused>) -> Told<Mark>
    requires { N.named ≡ ticked_by begun answer.now }
    ensures { result.items ≡ ticked_by begun answer.now }
{
    Told::list::<N>()
}

/// The marks of a tick that was begun or wasn't, and was answered so.
pub(crate) fn told_ticked(begun: bool, answer: &Result<Ticked, Refused>) -> Told<Mark>
    ensures { result.items ≡ ticked_by begun answer.now }
{
    named_ticked::<Brand>(begun, answer)
}

fn named_entries<N: Names<Entry>>(caller: u64, call: &Told<Call>, did: Option<Did>) -> Told<Entry>
    requires { N.named ≡ entries_of caller call.now.items did }
    ensures { result.items ≡ entries_of caller call.now.items did }
{
    Told::list::<N>()
}

/// The entry of a call that went so, and none where it is in no history.
pub(crate) fn told_entries(caller: u64, call: &Told<Call>, did: Option<Did>) -> Told<Entry>
    ensures { result.items ≡ entries_of caller call.now.items did }
{
    named_entries::<Brand>(caller, call, did)
}

fn named_changes<N: Names<Asked>>(row: &VecDeque<Asked>) -> Told<Asked>
    requires { N.named ≡ row.now.items }
    ensures { result.items ≡ row.now.items }
{
    Told::list::<N>()
}

/// The changes of a row, told before it takes them out.
pub(crate) fn told_changes(row: &VecDeque<Asked>) -> Told<Asked>
    ensures { result.items ≡ row.now.items }
{
    named_changes::<Brand>(row)
}

fn named_row<N: Names<Entry>>(
    caller: u64,
    row: &Told<Asked>,
    done: u64,
    refused: &Option<Refused>,
) -> Told<Entry>
    requires { N.named ≡ entries_in_row caller row.now.items done refused.now }
    ensures { result.items ≡ entries_in_row caller row.now.items done refused.now }
{
    Told::list::<N>()
}

/// The entries of a row of which so many changes were made, and the next one was refused for this, if it was.
pub(crate) fn told_row(
    caller: u64,
    row: &Told<Asked>,
    done: u64,
    refused: &Option<Refused>,
) -> Told<Entry>
    ensures { result.items ≡ entries_in_row caller row.now.items done refused.now }
{
    named_row::<Brand>(caller, row, done, refused)
}

fn named_nothing<N: Names<Mark>>() -> Told<Mark>
    requires { N.named ≡ [] }
    ensures { result.items ≡ [] }
{
    Told::list::<N>()
}

/// No mark.
pub(crate) fn told_nothing() -> Told<Mark>
    ensures { result.items ≡ [] }
{
    named_nothing::<Brand>()
}

/// How a call went in which the disk failed.
fn failed_by(why: &Refused) -> Option<Did>
    ensures { result ≡ failed_by why.now }
{
    match why {
        Refused::Fault { before, after, .. } => Some(Did::Failed {
            before: *before,
            after: *after,
        }),
        _ => None,
    }
}

/// How a change went, and None where it is in no history.
pub(crate) fn did_of<T>(answer: &Result<T, Refused>) -> Option<Did>
    ensures { (call : calls.Call) → result ≡ did_by (Makes call) (result_err answer.now) }
{
    match answer {
        Ok(_) => Some(Did::Done),
        Err(why) => failed_by(why),
    }
}

/// How many entries that is.
pub(crate) fn number_of(did: Option<Did>) -> u64
    ensures { (caller : ℕ) (call : calls.Call) → length (entries_of caller (call ∷ []) did) ≡ result }
{
    match did {
        None => 0,
        Some(_) => 1,
    }
}

/// How the next change of a row went, where it is in a history.
pub(crate) fn did_in_row(refused: &Option<Refused>) -> Option<Did>
    ensures { result ≡ option_and_then failed_by refused.now }
{
    match refused {
        Some(why) => failed_by(why),
        None => None,
    }
}
