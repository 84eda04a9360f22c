//! The canonical form of SPIR-V modules, as far as the covered subset needs it: definitions, and what follows of them.
#![tactic(auto)]

ghost use Rattle.spv_canon.specs.Laws.{CanonicalIsItsOwn, PairingRelatesOne, PartnerIsCanonical, PartnerIsSound, PartnerIsValid};

/// Every module with sound ids that makes a pair with a kernel's module of text has one canonical form, which is the module of the kernel.
pub fn pairing_relates_one()
    ensures { PairingRelatesOne }
{}

/// In the module of a kernel each id is defined once, and each type stands behind those that it refers to.
pub fn partner_is_sound()
    ensures { PartnerIsSound }
{}

/// The module of a kernel of the covered subset is valid: each id is defined once and below the bound, each type stands behind those that it
/// refers to, each instruction takes values that stand above it, of the types that it asks, and the block ends with OpReturn.
pub fn partner_is_valid()
    ensures { PartnerIsValid }
{}

/// The module of a kernel is its own canonical form.
pub fn partner_is_canonical()
    ensures { PartnerIsCanonical }
{}

/// The canonical form of a canonical form is that form.
pub fn canonical_is_its_own()
    ensures { CanonicalIsItsOwn }
{}
