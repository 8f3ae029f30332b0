// Writing a message that has room.
ghost use Rattle.std.specs.Prelude.{◌≡◌, ◌≤◌, length};
ghost use Rattle.blocks.specs.Layout.{overlay};
ghost use Rattle.wire.specs.Layouts.{message_bytes};
ghost use Rattle.wire.specs.Told.{message_told};

use wire::form::Form;
use wire::message::Message;
use wire::writer::write;

// Writes the message to the start of the outgoing buffer: its length.
pub(crate) fn send(form: Form, message: &Message, out: &mut [u8]) -> usize
    requires { length (message_bytes form (message_told message.now)) ≤ length out.old }
    ensures length { result ≡ length (message_bytes form (message_told message.now)) }
    ensures bytes { out.new ≡ overlay out.old (message_bytes form (message_told message.now)) }
{
    write(form, message, out).unwrap()
}
