//! New objects.
ghost use Rattle.std.specs.Prelude.{◌≡◌};
ghost use Rattle.steps.specs.Creating.{new_step};
ghost use Rattle.run.specs.Choices.{Stands};

use crate::dispatch::class_at;
use crate::run::Run;
use evaluation::value::Value;
use run_state::values::with_defaults;
use steps::refusal::Refusal;
use syntax::statements::Creation;

impl<'a> Run<'a> {
    /// The target takes a new object.
    pub(crate) fn create(
        &mut self,
        number: u16,
        target: Option<u16>,
        creation: Creation,
        next: u16,
    ) -> Result<(), Refusal>
        ensures model { self.new.model ≡ self.old.model }
        ensures stands { Stands (λ m c n x. new_step m c n x target creation next) self.old number result self.new }
    {
        let arguments = match self.evaluate_all(number, creation.arguments) {
            Ok(arguments) => arguments,
            Err(refusal) => return Err(refusal),
        };
        let Some(call) = self.state.call(number) else {
            return Err(Refusal::NoSuchCall);
        };
        let this = call.object;
        let t = self.model.tables();
        let Some(class) = class_at(t, creation.class) else {
            return Err(Refusal::NoSuchCall);
        };
        let objects = self.state.objects();
        if objects >= 64 {
            return Err(Refusal::NoObjectLeft);
        }
        let fields = with_defaults(t, arguments.as_slice(), class.fields_first, class.fields);
        self.push_new(
            creation.class,
            this,
            creation.group,
            class.outside == 1,
            fields,
        );
        self.store(number, target, Value::Object(objects + 1), next);
        Ok(())
    }
}
