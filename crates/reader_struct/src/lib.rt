// A reader that stands over the caller's bytes: a struct of the packed bytes and a place. It leaves the
// work to the reader's calls over the slice and the place. Assumes nothing.
#![tactic(auto)]

ghost use Rattle.std.specs.Prelude.{◌≡◌};
ghost use Rattle.reader.specs.Reading.{open_of};
ghost use Rattle.reader_struct.specs.Standing.{seen, begun_over, stepped_of, read_at};

use fields::Job;
use packed::Refusal;
use reader::Moved;

// The caller's bytes, and the place of the job that the next step gives.
#[derive(Clone, Copy)]
pub struct Reader<'a> {
    pub bytes: &'a [u8],
    pub place: usize,
}

// What opening gives: the reader, and the count of jobs of bytes that are accepted.
#[derive(Clone, Copy)]
pub struct Begun<'a> {
    pub reader: Reader<'a>,
    pub answer: Result<usize, Refusal>,
}

// What a step gives: the reader where it then stands, and the answer.
#[derive(Clone, Copy)]
pub struct Stepped<'a> {
    pub reader: Reader<'a>,
    pub answer: Result<Option<Job>, Refusal>,
}

// What opening said, and what a step said and the place after it.
#[derive(Clone, Copy)]
pub struct Reading {
    pub opened: Result<usize, Refusal>,
    pub moved: Moved,
}

impl<'a> Reader<'a> {
    // A reader at place 0, over bytes that pass checks 1 to 5; over an empty part of others.
    pub fn open(bytes: &'a [u8]) -> Begun<'a>
        ensures { (result.answer ≡ open_of bytes.now) × (seen result.reader ≡ begun_over bytes.entry) }
    {
        let answer = reader::open(bytes);
        let bytes = match answer {
            Ok(_) => bytes,
            Err(_) => &bytes[..0],
        };
        Begun {
            reader: Reader { bytes, place: 0 },
            answer,
        }
    }

    // One step: a job moves the reader on; the end and a refusal leave it where it stands.
    pub fn step(self) -> Stepped<'a>
        ensures { result ≡ stepped_of self.entry }
    {
        let moved = reader::step(self.bytes, self.place);
        Stepped {
            reader: Reader {
                place: moved.place,
                ..self
            },
            answer: moved.answer,
        }
    }
}

// A reader opened over bytes takes one step from a place: for callers that hold no reader.
pub fn read_at(bytes: &[u8], place: usize) -> Reading
    ensures { result ≡ read_at bytes.now place }
{
    let begun = Reader::open(bytes);
    let reader = Reader {
        place,
        ..begun.reader
    };
    let stepped = reader.step();
    Reading {
        opened: begun.answer,
        moved: Moved {
            answer: stepped.answer,
            place: stepped.reader.place,
        },
    }
}
