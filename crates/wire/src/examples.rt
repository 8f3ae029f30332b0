// The worked examples.
ghost use Rattle.wire.specs.Examples.{Examples};

// The worked examples follow from the definitions.
pub fn examples_stand() -> u8
    ensures { Examples }
{
    0
}
