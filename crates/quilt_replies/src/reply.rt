ghost use Rattle.std.specs.Prelude.{◌≡◌, IfOk};
ghost use Rattle.quilt_types.specs.declared.code.Code.{Code as RefusalCode};
ghost use Rattle.quilt_words.specs.Parsing.{refusal};
ghost use Rattle.quilt_replies.specs.Answers as answers;
ghost use Rattle.quilt_replies.specs.Answers.{Refused};
ghost use Rattle.quilt_replies.specs.Runs.{text_of};
ghost use Rattle.quilt_replies.specs.States.{Tells};
ghost use Rattle.quilt_replies.specs.declared.reply.Reply.TheVariants as replies;

use quilt_types::{Code, Text};
use quilt_words::refusal_text;
use std::alloc::{AllocError, Global};

/// What a command is answered: its body and the line `ok`, or a refusal.
#[derive(Drop)]
pub enum Reply {
    Ok(Text),
    No(Code),
}

impl Reply {
    /// The bytes that are put: the body and the line `ok`, or the line that refuses.
    pub fn into_text(self, alloc: Global) -> Result<Text, AllocError>
        ensures told { IfOk result (λ text. (reply : answers.Reply) → Tells self reply → text ≡ text_of reply) }
        ensures refused { IfOk result (λ text. (code : RefusalCode) → self ≡ replies.No code → (text ≡ refusal code) × (text ≡ text_of (Refused code))) }
    {
        match self {
            Reply::Ok(text) => Ok(text),
            Reply::No(code) => refusal_text(alloc, code),
        }
    }
}
