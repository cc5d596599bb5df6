//! The type that names a portal.
ghost use Rattle.std.specs.Prelude.{List, []};
ghost use Rattle.dml_portal.specs.declared.lanes.Lane.{Lane};

use std::marker::Brand;

/// A portal, as it was when its server and its seats got their type.
pub trait Berths {
    ghost lanes: { List Lane };
}

impl Berths for Brand {
    ghost lanes = { [] };
}
