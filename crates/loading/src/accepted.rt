ghost use Rattle.std.specs.Prelude.{◌≡◌, true};
ghost use Rattle.tables.specs.Layout.{content};
ghost use Rattle.loading.specs.Types.{keeps_types};

use model::model::ReadModel;

pub mod accepting;

/// A read model in which every function and every placed statement has a type.
#[derive(Drop)]
pub struct AcceptedModel {
    model: ReadModel,
    ghost typed: { keeps_types (content model.tables) ≡ true },
}
