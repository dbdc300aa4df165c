//! The laws of what is heard, and of when an answer is sent.
ghost use Rattle.http_desk_streams.specs.Laws.{AcceptanceIsTold};
ghost use Rattle.http_desk_streams.specs.Owing.{AnswersComeFirst, InterimComesFirst};

use baf_text::laws::read_is_listed;
use desk_store_catalogue::counter::Counter;

/// What is reported of a command that the desk accepts is what its step did.
#[tactic(auto, using(crate::proofs::Steps::told_is))]
pub fn acceptance_is_told()
    ensures { AcceptanceIsTold }
{
    read_is_listed();
}

/// Nothing is read while an answer is owed, and no body before the interim line that its head asks for. The clauses of `serve` and of
/// `read_request` that count failures say so, because each read may fail.
#[tactic(auto, using(crate::proofs::Owing::answers_first))]
pub fn answers_come_first<C: Counter>()
    ensures answers { AnswersComeFirst C.commands C.asks }
    ensures interim { InterimComesFirst }
{}
