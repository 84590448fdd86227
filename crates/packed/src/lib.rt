// Packed orders: the record layouts, the refusals and both round trips, as definitions and laws that
// the code which packs, unpacks and reads orders is proved against; and the refusal as one value.
#![tactic(auto)]

ghost use Rattle.std.specs.Prelude.{◌≡◌};
ghost use Rattle.refusals.specs.Numbers.{number_of, figure_of};
ghost use Rattle.packed.specs.Judge.{plainly as only_number, at_place, in_field, without_place};

use refusals::{Field, Reason};

// A refusal: its number, the place of the job that it is about, and the field of that job that is out of
// range (R24, R36); 0 where it names none. Every answer that can refuse with a place or a field holds one. Its members
// are numbers, as C is given them and as `in_field` takes them; the calls make them of a reason and a field by name.
#[derive(Clone, Copy)]
pub struct Refusal {
    pub number: u32,
    pub place: usize,
    pub field: u32,
}

// A refusal that names a field of the job at a place.
pub fn in_field(number: u32, place: usize, field: u32) -> Refusal
    ensures { result ≡ in_field number place field }
{
    Refusal {
        number,
        place,
        field,
    }
}

// One that names a place alone.
pub fn at_place(number: u32, place: usize) -> Refusal
    ensures { result ≡ at_place number place }
{
    in_field(number, place, 0)
}

// One that names neither.
pub fn plainly(number: u32) -> Refusal
    ensures { result ≡ only_number number }
{
    at_place(number, 0)
}

// A refusal without its place, for an answer that does not say of which order it would be.
pub fn without_place(refusal: Refusal) -> Refusal
    ensures { result ≡ without_place refusal }
{
    in_field(refusal.number, 0, refusal.field)
}

impl Refusal {
    // A refusal that names a field of the job at a place, both by name.
    pub fn in_field(reason: Reason, place: usize, field: Field) -> Refusal
        ensures { result ≡ in_field (number_of reason) place (figure_of field) }
    {
        in_field(reason.number(), place, field.figure())
    }

    // One that names a place alone.
    pub fn at_place(reason: Reason, place: usize) -> Refusal
        ensures { result ≡ at_place (number_of reason) place }
    {
        at_place(reason.number(), place)
    }

    // This one without its place.
    pub fn without_place(self) -> Refusal
        ensures { result ≡ without_place self }
    {
        without_place(self)
    }

    // Its number (R24).
    pub fn number(self) -> u32
        ensures { result ≡ self.number }
    {
        self.number
    }

    // The place that it names, 0 where it names none.
    pub fn place(self) -> usize
        ensures { result ≡ self.place }
    {
        self.place
    }

    // The figure of the field that it names (R36), 0 where it names none.
    pub fn figure(self) -> u32
        ensures { result ≡ self.field }
    {
        self.field
    }
}

// One that names neither.
impl From<Reason> for Refusal {
    ghost from_gives = { λ reason r. r ≡ only_number (number_of reason) };

    fn from(reason: Reason) -> Refusal {
        plainly(reason.number())
    }
}
