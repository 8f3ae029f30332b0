// What holds of signings: for every attestor, and between members with pair keys.
ghost use Rattle.attest.specs.PairKeys.{AcceptedByReceivers};
ghost use Rattle.attest.specs.Signings.{Attested};

use crate::attestor::Attestor;

/// Whatever was accepted stays accepted over any list of signings, and each tag given is accepted for the owner afterwards.
pub fn signings_stand<A: Attestor>() -> u8
    ensures { Attested A A.Attestor }
{
    0
}

/// A tag under a signer's keys is accepted as that signer's by each member that shares the key at its own place.
pub fn receivers_accept() -> u8
    ensures { AcceptedByReceivers }
{
    0
}
