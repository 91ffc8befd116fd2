//! The sequence of numbers that tells what each record is.

ghost use Rattle.std.specs.Prelude.{◌≡◌, ℕ, ◌+◌, ◌/◌, ◌%◌, ◌^◌, ◌<◌, nat_le, slice_index, slice_set, if◌then◌else◌};
ghost use Rattle.std.specs.Prelude.{replicate};
ghost use Rattle.run_spec.specs.Generated.{next_number};
ghost use Rattle.capture_gen.specs.Sequence.{kind_of};

/// What stands in a frame.
#[derive(Clone, Copy, Debug, PartialEq, Eq)]
pub(crate) enum Kind {
    /// A broadcast that is not IPv4.
    Other,
    /// A UDP datagram.
    Udp,
    /// A TCP segment.
    Tcp,
}

/// What a record is, but for its number.
#[derive(Clone, Copy, Debug)]
pub(crate) struct Draw {
    pub(crate) kind: Kind,
    /// The host that its frame comes from, below 8.
    pub(crate) host: u32,
    /// How many TCP records of that host come before it.
    pub(crate) earlier: u32,
}

/// The kind that a number from 0 to 19 tells.
fn kind_of(choice: u32) -> Kind
    ensures { result ≡ kind_of choice }
{
    if choice == 0 {
        Kind::Other
    } else if choice >= 10 {
        Kind::Tcp
    } else {
        Kind::Udp
    }
}

/// The number after another one (Knuth's MMIX generator: a linear congruence modulo 2^64).
fn next_number(number: u64) -> u64
    ensures { result ≡ next_number number }
{
    number
        .wrapping_mul(6_364_136_223_846_793_005)
        .wrapping_add(1_442_695_040_888_963_407)
}

/// How far a sequence has come.
#[derive(Drop)]
pub(crate) struct Sequence {
    /// The last number.
    pub(crate) number: u64,
    /// How many TCP records each host has had.
    pub(crate) tcp_counts: [u32; 8],
}

impl Sequence {
    /// The sequence that begins with this number.
    pub(crate) fn new(number: u64) -> Sequence
        ensures { result ≡ record { number = number; tcp_counts = replicate 8 0 } }
    {
        Sequence {
            number,
            tcp_counts: [0; 8],
        }
    }

    /// The next draw.
    pub(crate) fn draw(&mut self) -> Draw
        requires { (host : ℕ) → host < 8 → slice_index self.old.tcp_counts host < 4294967295 }
        ensures number { self.new.number ≡ next_number self.old.number }
        ensures kind { result.kind ≡ kind_of (self.new.number / 2 ^ 32 % 20) }
        ensures host { result.host ≡ self.new.number / 2 ^ 32 / 256 % 8 }
        ensures earlier { result.earlier ≡ slice_index self.old.tcp_counts result.host }
        ensures counts { self.new.tcp_counts
            ≡ (if nat_le 10 (self.new.number / 2 ^ 32 % 20)
            then slice_set self.old.tcp_counts result.host (result.earlier + 1) else self.old.tcp_counts) }
    {
        self.number = next_number(self.number);
        let high = self.number / 4_294_967_296;
        let host = (high / 256 % 8) as u32;
        let earlier = self.tcp_counts[host as usize];
        let kind = kind_of((high % 20) as u32);
        if kind == Kind::Tcp {
            self.tcp_counts[host as usize] = earlier + 1;
        }
        Draw {
            kind,
            host,
            earlier,
        }
    }
}
