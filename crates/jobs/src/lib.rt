// The jobs of an order, read one by one however they are held: as the records of packed bytes, or as given numbers.
// Assumes nothing.
#![tactic(auto)]

ghost use Rattle.std.specs.Prelude.{◌≡◌, ◌≤◌, ◌<◌, List, ℤ};
ghost use Rattle.packed.specs.Packed.{numbers_of, job_count, job_fields, fields_at};
ghost use Rattle.fields.specs.Fields.{fields_of};
ghost use Rattle.jobs.specs.Held.{RecordsStand, AllGiven};

use fields::Job;

// The jobs that an order has, at most 48.
pub trait Jobs {
    // The numbers of all of them, seven each.
    ghost numbers: { Self → List ℤ };

    fn count(&self) -> usize
        ensures few { result ≤ 48 }
        ensures all { result ≡ job_count (numbers self.now) };

    fn job(&self, place: usize) -> Job
        requires { place < job_count (numbers self.now) }
        ensures { fields_of result ≡ fields_at (numbers self.now) place };
}

// The records of a packed order, of a kind.
#[derive(Clone, Copy)]
pub struct Records<'a> {
    pub bytes: &'a [u8],
    pub count: usize,
    pub kind: usize,
    ghost stand: { RecordsStand bytes.now count kind },
}

impl<'a> Records<'a> {
    // The job at a place, by its record.
    pub fn job_at(self, place: usize) -> Job
        requires { place < self.count }
        ensures { fields_of result ≡ job_fields self.entry.bytes.now place }
    {
        fields::job_by_kind(self.bytes, self.kind, place)
    }
}

impl<'a> Jobs for Records<'a> {
    ghost numbers = { λ r. numbers_of r.bytes.now };

    fn count(&self) -> usize {
        self.count
    }

    fn job(&self, place: usize) -> Job {
        self.job_at(place)
    }
}

// The numbers of jobs, as packing is given them.
#[derive(Clone, Copy)]
pub struct Given<'a> {
    pub numbers: &'a [i32],
    ghost whole: { AllGiven numbers.now },
}

impl<'a> Jobs for Given<'a> {
    ghost numbers = { λ g. g.numbers.now };

    fn count(&self) -> usize {
        self.numbers.len() / 7
    }

    fn job(&self, place: usize) -> Job {
        fields::job_from(self.numbers, 7 * place)
    }
}
