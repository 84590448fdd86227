// The jobs of an order, drawn one behind the other.
use crate::in_time;
use crate::kinds::Kind;
use crate::seeds::Seed;
use careful::{Job, count_of, job_at, number_of, plus};

// How far above its partner's number an optional half's lies, and its seconds for each weight.
const APART: i32 = 32;

const PER_WEIGHT: u64 = 60;

// A weight, 0 for a critical job.
fn draw_weight(seed: &mut Seed, kind: Kind) -> i32 {
    if seed.draw(10) < kind.critical {
        return 0;
    }
    seed.draw_from(1, kind.weights)
}

// What is drawn of a job first. One that weighs nothing is critical.
#[derive(Clone, Copy)]
struct Head {
    number: i32,
    weight: i32,
}

// The head of any job: its number is one of six that no other job has.
fn draw_any(seed: &mut Seed, kind: Kind, place: u8) -> Head {
    Head {
        number: seed.draw_from(number_of(6 * place as u64), 6),
        weight: draw_weight(seed, kind),
    }
}

// The head of a half. Without a partner it is critical, and its number is one of three that no other job
// has, from 1 to 30 in all; an optional one's is above its partner's.
fn draw_half(seed: &mut Seed, kind: Kind, place: u8, partner: Option<i32>) -> Head {
    let weight = draw_weight(seed, kind);
    let number = seed.draw_from(number_of(3 * place as u64 + 1), 3);
    match partner {
        Some(partner) if weight != 0 => Head {
            number: plus(partner, APART),
            weight,
        },
        _ => Head { number, weight: 0 },
    }
}

// The number of the critical half that stands so many jobs before a place, if one does.
fn partner_of(numbers: &[i32], place: u8, lag: u8) -> Option<i32> {
    let partner = job_at(numbers, place.checked_sub(lag)? as usize);
    partner.critical.then_some(partner.number)
}

// The length of a job: that of an optional half is fixed by its weight.
fn draw_length(seed: &mut Seed, kind: Kind, weight: i32) -> i32 {
    let length = seed.draw_from(kind.shortest, kind.lengths);
    if kind.lag.is_none() || weight == 0 {
        return length;
    }
    number_of(PER_WEIGHT * count_of(weight))
}

// The pack that a seed draws. One job in eight has one, so that orders of both kinds of records are met. It
// needs no seed of its own, since no plan reads it.
fn drawn_pack(seed: Seed) -> i32 {
    let pack = seed.drawn(2_048);
    if pack > 255 { 0 } else { number_of(pack) }
}

// The job at a place, ready from a time on and due by a time drawn. A half's partner stands before it.
pub fn draw_job(seed: &mut Seed, kind: Kind, from: i32, numbers: &[i32], place: u8) -> Job {
    let Head { number, weight } = match kind.lag {
        None => draw_any(seed, kind, place),
        Some(lag) => draw_half(seed, kind, place, partner_of(numbers, place, lag)),
    };
    let ready = in_time(seed.draw_from(from, kind.spread));
    let length = draw_length(seed, kind, weight);
    let least = plus(plus(ready, length), kind.least);
    let deadline = in_time(seed.draw_from(least, kind.slack));
    Job {
        number,
        pack: drawn_pack(*seed),
        critical: weight == 0,
        weight,
        ready,
        length,
        deadline,
    }
}
