// A job's numbers and a bus-free time against their limits (R2, R3), and which field of a job is out of range (R36). Assumes nothing.
#![tactic(auto)]

ghost use Rattle.std.specs.Prelude.{◌≡◌, cond};
ghost use Rattle.seconds.specs.Ranges.{is_between, is_time};
ghost use Rattle.packed.specs.Refusals.{weight_test, bad_field};
ghost use Rattle.fields.specs.Fields.{fields_of};
ghost use Rattle.refusals.specs.Numbers.{figure_of, figure_or_none};

use fields::Job;
use refusals::Field;

// Whether a number lies from the least to the greatest.
pub fn between(least: i32, greatest: i32, z: i32) -> bool
    ensures { result ≡ is_between least greatest z }
{
    if z < least {
        return false;
    }
    z <= greatest
}

// Whether a bus-free time is one that an order may have.
pub fn is_time(z: i32) -> bool
    ensures { result ≡ is_time z }
{
    between(-100000, 100000, z)
}

// Whether a weight is within its limits: none for a critical job, 1 to 50 for any other.
pub fn weight_within(critical: bool, weight: i32) -> bool
    ensures { result ≡ weight_test critical weight }
{
    if critical {
        return between(0, 0, weight);
    }
    between(1, 50, weight)
}

// A field where its test is not passed, else the one that is named of those behind it.
fn field_or(passed: bool, field: Field, later: Option<Field>) -> Option<Field>
    ensures { figure_or_none result ≡ cond passed (figure_or_none later) (figure_of field) }
{
    if passed { later } else { Some(field) }
}

// The first field of a job that is out of range, if one is. The last field is tested first, so that the first that is out of
// range is named.
pub fn bad_field(job: Job) -> Option<Field>
    ensures { figure_or_none result ≡ bad_field (fields_of job) }
{
    let mut bad = field_or(is_time(job.deadline), Field::Deadline, None);
    bad = field_or(between(1, 10000, job.length), Field::Length, bad);
    bad = field_or(is_time(job.ready), Field::Ready, bad);
    bad = field_or(
        weight_within(job.critical == 1, job.weight),
        Field::Weight,
        bad,
    );
    bad = field_or(between(0, 1, job.critical), Field::Critical, bad);
    bad = field_or(between(0, 255, job.pack), Field::Pack, bad);
    field_or(between(0, 63, job.number), Field::Number, bad)
}
