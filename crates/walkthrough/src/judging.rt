// Messages judged by their form alone.
ghost use Rattle.std.specs.Prelude.{◌≡◌};
ghost use Rattle.std.specs.Result.{result_map_both};
ghost use Rattle.member.specs.Words.{refusal_number};
ghost use Rattle.wire.specs.Kinds.{kind_number};
ghost use Rattle.wire.specs.Messages.{read_message};
ghost use Rattle.walkthrough.specs.Judging.{judged};

use member::types::Refusal;
use wire::form::Form;
use wire::kind::MessageKind;
use wire::reader::read;

// The kind of the message that the bytes are; refused are bytes that have not the form of one.
pub fn judge(form: Form, bytes: &[u8]) -> Result<MessageKind, Refusal>
    ensures { result_map_both kind_number refusal_number result ≡ judged (read_message form bytes.now) }
{
    Ok(read(form, bytes)?.kind())
}
