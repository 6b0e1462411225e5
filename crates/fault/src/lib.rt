//! What a call answers where it does not succeed: a fault, which has a number, a layer and sometimes a detail.
#![tactic(auto)]

ghost use Rattle.std.specs.Prelude.{◌≡◌};
ghost use Rattle.std.specs.Option.{option_map};
ghost use Rattle.fault.specs.Numbers.{operation, layer_number, number, layer, detail};

/// The operations that an injected fault can strike.
#[derive(Clone, Copy, PartialEq, Eq, Debug)]
pub enum Op {
    Open,
    Read,
    Write,
    Sync,
    Resize,
    Remove,
    Scan,
}

/// The detail of an injected fault.
impl From<Op> for u8 {
    ghost from_gives = { λ op n. n ≡ operation op };

    fn from(op: Op) -> Self {
        match op {
            Op::Open => 1,
            Op::Read => 2,
            Op::Write => 3,
            Op::Sync => 4,
            Op::Resize => 5,
            Op::Remove => 6,
            Op::Scan => 7,
        }
    }
}

/// The layers that a fault comes from.
#[derive(Clone, Copy, PartialEq, Eq, Debug)]
pub enum Layer {
    /// The register of open files.
    Register,
    /// Injection and the log.
    Injection,
    /// The store.
    Store,
}

/// The number of a layer.
impl From<Layer> for u8 {
    ghost from_gives = { λ layer n. n ≡ layer_number layer };

    fn from(layer: Layer) -> Self {
        match layer {
            Layer::Register => 1,
            Layer::Injection => 2,
            Layer::Store => 3,
        }
    }
}

/// One case for each fault; where two layers give the same number, one case for each of them.
#[derive(Clone, Copy, PartialEq, Eq, Debug)]
pub enum Fault {
    /// The handle is not held.
    NoHandle,
    /// The ticket is not held.
    NoTicket,
    /// A partition or name over 16 bytes, a header over 64, a write over 256.
    TooLong,
    /// A write's offset plus its length exceeds 2^64 - 1.
    WriteOverflow,
    /// A read's offset plus its length plus the header's length exceeds 2^64 - 1.
    ReadOverflow,
    /// A rate over 65,536.
    BadRate,
    /// A scan area under 136 bytes, a look area under 1,016, or a medium that has not 12,800.
    ShortArea,
    /// A write or a resize would pass 1,016 bytes, header included.
    NoSpace,
    /// An open with 8 handles held or 1,000,000 issued, or of an absent partition while 4 stand, or of an absent file
    /// while 8 stand.
    TableFull,
    /// A sync started with 8 tickets held or 1,000,000 issued.
    TicketsFull,
    /// The log holds 32 entries.
    LogFull,
    /// A fault that the bench injected.
    Injected(Op),
    /// The partition's name is no partition name.
    BadPartition,
    /// No such partition stands.
    PartitionMissing,
    /// No such file stands, or no file has the handle's generation.
    BlobMissing,
    /// The file is leased to another handle.
    AlreadyOpen,
    /// A read ends past the live bytes.
    InsufficientLength,
}

impl Fault {
    /// The fault's number, which two faults of different layers may share.
    // A number and no enum, since it is what is printed and compared.
    pub fn number(self) -> u8
        ensures { result ≡ number self }
    {
        match self {
            Fault::NoHandle | Fault::NoTicket => 1,
            Fault::TooLong => 2,
            Fault::WriteOverflow | Fault::ReadOverflow => 3,
            Fault::BadRate => 4,
            Fault::ShortArea => 5,
            Fault::NoSpace => 6,
            Fault::TableFull | Fault::TicketsFull => 7,
            Fault::LogFull => 8,
            Fault::Injected(_) => 9,
            Fault::BadPartition => 10,
            Fault::PartitionMissing => 11,
            Fault::BlobMissing => 12,
            Fault::AlreadyOpen => 13,
            Fault::InsufficientLength => 14,
        }
    }

    /// The layer that the fault comes from.
    pub fn layer(self) -> Layer
        ensures { result ≡ layer self }
    {
        match self {
            Fault::AlreadyOpen => Layer::Register,
            Fault::NoTicket
            | Fault::WriteOverflow
            | Fault::BadRate
            | Fault::TicketsFull
            | Fault::LogFull
            | Fault::Injected(_) => Layer::Injection,
            _ => Layer::Store,
        }
    }

    /// The operation that an injected fault struck; no other fault has a detail.
    pub fn detail(self) -> Option<Op>
        ensures { option_map operation result ≡ detail self }
    {
        match self {
            Fault::Injected(op) => Some(op),
            _ => None,
        }
    }
}
