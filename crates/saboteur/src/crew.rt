// The objects that a script may give to a failed side, by place (own).
ghost use Rattle.std.specs.Prelude.{◌≡◌, ◌≢◌, ℕ, ◌<◌, ◌≤◌, length, set, get_or, vec_len, true, false, None, is_some};
ghost use Rattle.saboteur.specs.Held.{plan_at, plans_in, places_in, places_of};

use crate::holder::Holder;
use crate::traits::Saboteur;

/// How many places a line of a script can name: 0 to 254.
pub const MOST_PLACES: usize = 255;

/// Places, each with an object or empty. A contract sees of each place the plan that its object tells (`plans_of`).
#[derive(Drop)]
pub struct Crew {
    list: Vec<Option<Box<dyn Saboteur + Send>>>,
}

impl Crew {
    /// The crew with these places: a script names a place by a number up to 254.
    pub fn of(list: Vec<Option<Box<dyn Saboteur + Send>>>) -> Crew
        requires { vec_len list ≤ MOST_PLACES }
        ensures plans { plans_in (λ b. plan b) result.list.items ≡ plans_in (λ b. plan b) list.items }
        ensures places { places_of result ≡ places_in list.items }
    {
        Crew { list }
    }

    /// How many places there are, empty ones counted.
    pub fn len(&self) -> usize
        ensures { result ≡ length (plans_in (λ b. plan b) self.now.list.items) }
    {
        self.list.len()
    }

    /// Whether an object is at this place. False exactly where there is no such place, or it is empty.
    pub fn holds(&self, i: usize) -> bool
        ensures plan { result ≡ is_some (get_or (plans_in (λ b. plan b) self.now.list.items) i None) }
        ensures place { i < MOST_PLACES → result ≡ get_or (places_of self.now) i false }
    {
        i < self.list.len() && self.list[i].is_some()
    }

    /// The object of a place, which is empty afterwards. None exactly where it was empty.
    pub fn take(&mut self, i: usize) -> Option<Box<dyn Saboteur + Send>>
        requires { i < length (plans_in (λ b. plan b) self.old.list.items) }
        ensures taken { plan_at (λ b. plan b) result ≡ get_or (plans_in (λ b. plan b) self.old.list.items) i None }
        ensures rest { plans_in (λ b. plan b) self.new.list.items ≡ set (plans_in (λ b. plan b) self.old.list.items) i None }
    {
        self.list[i].take()
    }

    /// Gives a side the object of a place, where there is one, in place of what it held. The place is empty afterwards.
    pub fn supply(&mut self, holder: &mut Holder, place: usize)
        requires { place ≤ 255 }
        ensures held { plan_at (λ b. plan b) holder.new.object ≡ get_or (plans_in (λ b. plan b) self.old.list.items) place None }
        ensures rest { (i : ℕ) → i ≢ place
            → get_or (plans_in (λ b. plan b) self.new.list.items) i None ≡ get_or (plans_in (λ b. plan b) self.old.list.items) i None }
    {
        holder.dismiss();
        if place < self.len() {
            if let Some(object) = self.take(place) {
                holder.give(object);
            }
        }
    }

    /// A holder that holds nothing, for a side that may be given these objects.
    pub fn holder(&self) -> Holder
        requires { true ≡ true }
        ensures { result.object ≡ None }
    {
        Holder { object: nothing() }
    }
}

fn nothing<T>() -> Option<T>
    ensures { result ≡ None }
{
    None
}
