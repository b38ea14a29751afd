//! What a dump is of which no rule is broken.
ghost use Rattle.cs_audit_rules.specs.Sound.{UnbrokenIsSound};

/// A dump of which no rule is broken is sound, with the history that it tells. There is no premise.
pub fn unbroken_dumps_are_sound()
    ensures { UnbrokenIsSound }
{}
