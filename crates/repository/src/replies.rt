//! The replies of commands that notify no adapter, and the outcomes of commands that are given no adapter.
ghost use Rattle.std.specs.Prelude.{◌≡◌, [], true};
ghost use Rattle.notice_chain.specs.View.{View};
ghost use Rattle.repository.specs.Run.{answered_outcome, change_outcome, read_outcome};
ghost use Rattle.repository.specs.Views.{changed_view, outcome_view};
ghost use Rattle.repository.specs.declared.reply.Answer.TheVariants as answer;

use crate::reply::{Answer, Failure, Reply};
use mm_types::{Refused, Seq};
use std::alloc::Global;

/// An answer, as the reply of a command that notifies no adapter. Takes no memory.
pub(crate) fn reply<A>(alloc: Global, answer: Answer) -> Reply<A>
    ensures { result ≡ record { answer = answer; told = []; released = [] } }
{
    Reply {
        answer,
        told: Seq::new(alloc),
        released: Seq::new(alloc),
    }
}

/// The outcome of a change that notifies no adapter: a reply with `answer` if the change was done, else the refusal.
pub(crate) fn replied<A>(
    alloc: Global,
    done: Result<(), Refused>,
    answer: Answer,
) -> Result<Reply<A>, Refused>
    ensures { (heard : A → View) → change_outcome (changed_view heard result) ≡ read_outcome (λ u. answer) done }
{
    done?;
    Ok(reply(alloc, answer))
}

/// The outcome of a read: a reply with the answer, or the refusal.
pub(crate) fn replied_read<A>(
    alloc: Global,
    read: Result<Answer, Refused>,
) -> Result<Reply<A>, Refused>
    ensures { (heard : A → View) → change_outcome (changed_view heard result) ≡ answered_outcome read }
{
    let answer = read?;
    Ok(reply(alloc, answer))
}

/// The outcome of a command that is given no adapter, from its reply or its refusal. A failure of the command gives no adapter back.
pub(crate) fn outcome<A>(found: Result<Reply<A>, Refused>) -> Result<Reply<A>, Failure<A>>
    ensures { (heard : A → View) → outcome_view heard result ≡ change_outcome (changed_view heard found) }
{
    match found {
        Ok(reply) => Ok(reply),
        Err(refused) => Err(Failure {
            refused,
            given_back: None,
        }),
    }
}
