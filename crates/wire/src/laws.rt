// What holds of all messages.
ghost use Rattle.wire.specs.RoundTrips.{CertificatesStand, AllEntriesHold, GenesisCertified, MessagesRoundTrip, AllPartsInPlace};

// What fits is written so that it reads back as the same; what is read fits, and writes back as the same bytes.
pub fn messages_round_trip() -> u8
    ensures { MessagesRoundTrip }
{
    0
}

// A certificate put together from a statement and its entries reads back as that certificate, with those entries; so does genesis', with none.
pub fn certificates_stand() -> u8
    ensures stand { CertificatesStand }
    ensures genesis { GenesisCertified }
{
    0
}

// The blocks and certificates of a message that was read stand in it where they are said to.
pub fn parts_in_place() -> u8
    ensures { AllPartsInPlace }
{
    0
}

// Of what was read, the entries are as many as are needed, of members, the signers rising.
pub fn entries_hold() -> u8
    ensures { AllEntriesHold }
{
    0
}
