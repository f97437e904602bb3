//! Which tuples a projection, a renaming, an extension and a setting of attributes have.
ghost use Rattle.td_algebra.specs.laws.Membership.{ExtensionByMembership, ProjectionByMembership};
ghost use Rattle.td_algebra.specs.laws.Membership.{RenamingByMembership, SettingByMembership};

/// Projection: some tuple of the operand agrees with it on the names.
pub fn projection_by_membership()
    ensures { ProjectionByMembership }
{}

/// RENAME: it is some tuple of the operand with its names changed.
pub fn renaming_by_membership()
    ensures { RenamingByMembership }
{}

/// EXTEND: it is some tuple of the operand with each new attribute set to its value in that tuple.
pub fn extension_by_membership()
    ensures { ExtensionByMembership }
{}

/// Attributes set: it is some tuple of the operand with each set to its value in that tuple.
pub fn setting_by_membership()
    ensures { SettingByMembership }
{}
