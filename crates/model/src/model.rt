ghost use Rattle.std.specs.Prelude.{◌≡◌, true};
ghost use Rattle.tables.specs.Layout.{content, content_of};
ghost use Rattle.tables.specs.Limits.{IsWithinLimits};
ghost use Rattle.model.specs.Rules.{keeps_rules};

use tables::tables::Tables;

pub mod reading;

/// A model whose bytes keep every rule of the format, with the tables that they spell.
#[derive(Drop)]
pub struct ReadModel {
    bytes: Vec<u8>,
    tables: Tables,
    ghost spelled: { ∥ content tables ≡ content_of bytes.items ∥₁ },
    ghost keeps: { keeps_rules (content tables) ≡ true },
    ghost limits: { IsWithinLimits (content tables) },
}
