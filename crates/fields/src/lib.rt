// One job of an order, from and to its bytes and seven numbers, and the header from and to four bytes.
// A record is read and written by its kind, in the nesting of its layout. Assumes nothing.
#![tactic(auto)]

ghost use Rattle.std.specs.Prelude.{◌≡◌, true, ◌++◌, ◌+◌, ◌*◌, ◌%◌, ◌^◌, ◌≤◌, ◌<◌, pos, nat_abs, length, take, drop, ◌≤ℤ◌};
ghost use Rattle.seconds.specs.Ranges.{InTime};
ghost use Rattle.seconds.specs.Twos.{bits_to, to_bits};
ghost use Rattle.packed.specs.Layout.{encode, bytes_of, job_layout};
ghost use Rattle.packed.specs.Layout.{pack_bits, front_layout, back_layout, front_bytes, record_bytes};
ghost use Rattle.packed.specs.Packed.{header_of, kind_of, job_fields, packed_header};
ghost use Rattle.packed.specs.Refusals.{fields_within};
ghost use Rattle.fields.specs.Fields.{fields_of, header_fields};
ghost use Rattle.fields.specs.Asked.{front_of, back_of, WordIn, WordIs, HeadBits};
ghost use Rattle.fields.specs.Asked.{WordRoom, RecordIn, RecordBy, HeadFits, JobFor, JobRoom, HeaderRoom};

// A job's seven numbers.
#[derive(Clone, Copy)]
pub struct Job {
    pub number: i32,
    pub pack: i32,
    pub critical: i32,
    pub weight: i32,
    pub ready: i32,
    pub length: i32,
    pub deadline: i32,
}

// What a header says. The kind stays a number: any byte may stand there until it is judged, and a record is sized by it.
#[derive(Clone, Copy)]
pub struct Header {
    pub count: usize,
    pub t0: i32,
    pub kind: usize,
}

// What one more of each field counts for in a record's front, which ends with the ready time, where that
// counts 1: its last four bytes have all but the number and the pack in every kind.
const HEAD: u64 = 0x400_0000;

const CRITICAL: u64 = 0x200_0000;

const WEIGHT: u64 = 0x4_0000;

// The same in its back, four bytes; a deadline counts 1.
const LENGTH: u64 = 0x4_0000;

// The same for the header's record of 32 bits; a kind counts 1.
const COUNT: u64 = 0x400_0000;

const T0: u64 = 0x100;

// The number that some bytes make, the first highest.
pub fn word_at(bytes: &[u8], at: usize, count: usize) -> u64
    requires { WordIn bytes.now at count }
    ensures { WordIs bytes.now at count result }
{
    let mut word: u64 = 0;
    for byte in &bytes[at..at + count] {
        word = word * 256 + *byte as u64;
    }
    word
}

// A time from its 18 bits: 131,072 and more is its value less 262,144. Turned by half a round they
// count up from the earliest time, with no branch.
pub fn time_of(bits: u64) -> i32
    requires { bits < 262144 }
    ensures { result ≡ bits_to 18 bits }
{
    let turned = (bits + 131072) % 262144;
    turned as i32 - 131072
}

// The kind of an order's records.
pub fn kind_in(bytes: &[u8]) -> usize
    requires { 4 ≤ length bytes.now }
    ensures { result ≡ kind_of bytes.now }
{
    bytes[3] as usize
}

// The pack, from a record's first byte and the six bits behind it; in kind 0 there is none.
fn pack_of(kind: usize, first: u64, behind: u64) -> u64
    requires { HeadBits first behind }
    ensures { result ≡ (first * 2 ^ 6 + behind) % 2 ^ pack_bits kind }
{
    if kind == 0 {
        return 0;
    }
    first % 4 * 64 + behind
}

// The job at a place of an order of a kind. A record of kind 0 has eight bytes and one of kind 1 nine; the
// first six bits are the number, and the four bytes on either side of its edge, behind the ready time, are
// read alike in both: two readings side by side are too long to be inlined, and cost planning a tenth.
pub fn job_by_kind(bytes: &[u8], kind: usize, place: usize) -> Job
    requires { RecordBy bytes.now kind place }
    ensures { fields_of result ≡ job_fields bytes.now place }
{
    let size = 8 + kind;
    let first = bytes[4 + size * place] as u64;
    let edge = size * place + size;
    let front = word_at(bytes, edge - 4, 4);
    let back = word_at(bytes, edge, 4);
    let pack = pack_of(kind, first, front / HEAD);
    let past_head = front % HEAD;
    let past_critical = past_head % CRITICAL;
    let ready = time_of(past_critical % WEIGHT);
    let deadline = time_of(back % LENGTH);
    Job {
        number: (first / 4) as i32,
        pack: pack as i32,
        critical: (past_head / CRITICAL) as i32,
        weight: (past_critical / WEIGHT) as i32,
        ready,
        length: (back / LENGTH) as i32,
        deadline,
    }
}

// The same by the order's own kind.
pub fn job_in(bytes: &[u8], place: usize) -> Job
    requires { RecordIn bytes.now place }
    ensures { fields_of result ≡ job_fields bytes.now place }
{
    let kind = kind_in(bytes);
    job_by_kind(bytes, kind, place)
}

// The header at the front of bytes.
pub fn header_at(bytes: &[u8]) -> Header
    requires { 4 ≤ length bytes.now }
    ensures { header_fields result ≡ header_of bytes.now }
{
    let word = word_at(bytes, 0, 4);
    let past_count = word % COUNT;
    let t0 = time_of(past_count / T0);
    Header {
        count: (word / COUNT) as usize,
        t0,
        kind: (past_count % T0) as usize,
    }
}

// The 18 bits of a time: below 0 it is its value and 262,144.
pub fn time_bits(time: i32) -> u64
    requires { InTime time }
    ensures { result ≡ to_bits 18 time }
{
    if time < 0 {
        return (time + 262144) as u64;
    }
    time as u64
}

// A number as so many bytes, the first highest, written at a place; the last is written first.
pub fn put_word(bytes: &mut [u8], at: usize, count: usize, word: u64)
    requires { WordRoom bytes.old at count word }
    ensures { bytes.new ≡ take at bytes.old ++ bytes_of count word ++ drop (at + count) bytes.old }
{
    let mut left = word;
    for i in (0..count).rev() {
        bytes[at + i] = (left % 256) as u8;
        left /= 256;
    }
}

// The bits of a number that is not below 0: its value.
fn plain_bits(z: i32) -> u64
    requires { pos 0 ≤ℤ z }
    ensures { result ≡ nat_abs z }
{
    z as u64
}

// The number and the pack of a job, as its record's first bits.
fn head_word(number: u64, pack: u64, kind: usize) -> u64
    requires { HeadFits number pack kind }
    ensures { result ≡ number * 2 ^ pack_bits kind + pack }
{
    if kind == 0 {
        return number;
    }
    number * 256 + pack
}

// The front of a job's record as one number.
fn front_word(job: Job, kind: usize) -> u64
    requires { JobFor job kind }
    ensures { result ≡ encode (front_layout kind) (front_of job) }
{
    let number = plain_bits(job.number);
    let pack = plain_bits(job.pack);
    let critical = plain_bits(job.critical);
    let weight = plain_bits(job.weight);
    let ready = time_bits(job.ready);
    let head = head_word(number, pack, kind);
    head * HEAD + (critical * CRITICAL + (weight * WEIGHT + ready))
}

// The back of a job's record as one number.
fn back_word(job: Job) -> u64
    requires { fields_within (fields_of job) ≡ true }
    ensures { result ≡ encode back_layout (back_of job) }
{
    let length = plain_bits(job.length);
    let deadline = time_bits(job.deadline);
    length * LENGTH + deadline
}

// The bytes of a record's front.
pub fn front_bytes(kind: usize) -> usize
    ensures { result ≡ front_bytes kind }
{
    if kind == 0 {
        return 4;
    }
    5
}

// The bytes of a record.
pub fn record_bytes(kind: usize) -> usize
    ensures { result ≡ record_bytes kind }
{
    front_bytes(kind) + 4
}

// A job's bytes of a kind, written at a place: the front, then the back.
pub fn put_job(bytes: &mut [u8], at: usize, kind: usize, job: Job)
    requires { JobRoom bytes.old at kind job }
    ensures { bytes.new
        ≡ take at bytes.old ++ bytes_of (record_bytes kind) (encode (job_layout kind) (fields_of job))
        ++ drop (at + record_bytes kind) bytes.old }
{
    let front = front_word(job, kind);
    let back = back_word(job);
    let edge = front_bytes(kind);
    put_word(bytes, at, edge, front);
    put_word(bytes, at + edge, 4, back);
}

// A header's four bytes, written at the front.
pub fn put_header(bytes: &mut [u8], kind: usize, count: usize, t0: i32)
    requires { HeaderRoom bytes.old kind count t0 }
    ensures { bytes.new ≡ packed_header kind count t0 ++ drop 4 bytes.old }
{
    let word = (count as u64) * COUNT + (time_bits(t0) * T0 + (kind as u64));
    put_word(bytes, 0, 4, word);
}

// The job whose seven numbers stand at a place.
pub fn job_from(numbers: &[i32], at: usize) -> Job
    requires { at + 7 ≤ length numbers.now }
    ensures { fields_of result ≡ take 7 (drop at numbers.now) }
{
    Job {
        number: numbers[at],
        pack: numbers[at + 1],
        critical: numbers[at + 2],
        weight: numbers[at + 3],
        ready: numbers[at + 4],
        length: numbers[at + 5],
        deadline: numbers[at + 6],
    }
}

// A job's seven numbers, written at a place. Tried: `copy_from_slice` of an array of them takes the way over the stack.
pub fn put_numbers(numbers: &mut [i32], at: usize, job: Job)
    requires { at + 7 ≤ length numbers.old }
    ensures { numbers.new ≡ take at numbers.old ++ fields_of job ++ drop (at + 7) numbers.old }
{
    numbers[at] = job.number;
    numbers[at + 1] = job.pack;
    numbers[at + 2] = job.critical;
    numbers[at + 3] = job.weight;
    numbers[at + 4] = job.ready;
    numbers[at + 5] = job.length;
    numbers[at + 6] = job.deadline;
}
