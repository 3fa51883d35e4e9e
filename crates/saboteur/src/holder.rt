// What a side holds of the objects (own).
ghost use Rattle.std.specs.Prelude.{◌≡◌, true, None, IsSome, Some, is_some};
ghost use Rattle.lift_model.specs.Plans.{Acted};
ghost use Rattle.saboteur.specs.Held.{plan_at};

use crate::deed::Deed;
use crate::traits::Saboteur;

/// An object, or nothing. A contract sees the plan that the object tells (`plan_held`).
#[derive(Drop)]
pub struct Holder {
    pub(crate) object: Option<Box<dyn Saboteur + Send>>,
}

impl Holder {
    /// Whether an object is held.
    pub fn held(&self) -> bool
        ensures { result ≡ is_some (plan_at (λ b. plan b) self.now.object) }
    {
        self.object.is_some()
    }

    /// Takes an object, where nothing is held.
    pub fn give(&mut self, object: Box<dyn Saboteur + Send>)
        requires { plan_at (λ b. plan b) self.old.object ≡ None }
        ensures { plan_at (λ b. plan b) self.new.object ≡ Some (plan object) }
    {
        self.object = Some(object);
    }

    /// The deed of the object in this tick, in which its side saw this word: the one that its plan says, where it tells one.
    /// The object is changed through its interface alone.
    pub fn act(&mut self, tick: u32, seen: u64) -> Deed
        requires { IsSome (plan_at (λ b. plan b) self.old.object) }
        ensures { Acted (plan_at (λ b. plan b) self.old.object) seen result (plan_at (λ b. plan b) self.new.object) }
    {
        match self.object.take() {
            Some(mut object) => {
                let deed = object.act(tick, seen);
                self.object = Some(object);
                deed
            }
            None => unreachable!(),
        }
    }

    /// Drops the object. False exactly where nothing was held.
    pub fn dismiss(&mut self) -> bool
        requires { true ≡ true }
        ensures was { result ≡ is_some (plan_at (λ b. plan b) self.old.object) }
        ensures gone { plan_at (λ b. plan b) self.new.object ≡ None }
    {
        let object = self.object.take();
        object.is_some()
    }
}
