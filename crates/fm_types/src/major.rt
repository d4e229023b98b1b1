//! The major functions that no kind of operation of its own stands for.

ghost use Rattle.std.specs.Prelude.{◌≡◌};
ghost use Rattle.fm_types.specs.Majors.{major_at, major_bit, major_code};

/// A major function of the kit (`IRP_MJ_..`), with its number there. Those that stand for a kind of
/// operation alone (`IRP_MJ_READ` ..) aren't among them; `QueryInformation`, `SetInformation` and
/// `DirectoryControl` are of the classes that have no kind of their own.
#[derive(Clone, Copy, Debug, PartialEq, Eq, Hash)]
pub enum Major {
    CreateNamedPipe = 1,
    QueryInformation = 5,
    SetInformation = 6,
    QueryEa = 7,
    SetEa = 8,
    QueryVolumeInformation = 10,
    SetVolumeInformation = 11,
    DirectoryControl = 12,
    FileSystemControl = 13,
    DeviceControl = 14,
    InternalDeviceControl = 15,
    Shutdown = 16,
    LockControl = 17,
    CreateMailslot = 19,
    QuerySecurity = 20,
    SetSecurity = 21,
    Power = 22,
    SystemControl = 23,
    DeviceChange = 24,
    QueryQuota = 25,
    SetQuota = 26,
    Pnp = 27,
    VolumeDismount = 236,
    VolumeMount = 237,
    MdlWriteComplete = 238,
    PrepareMdlWrite = 239,
    MdlReadComplete = 240,
    MdlRead = 241,
    NetworkQueryOpen = 242,
    FastIoCheckIfPossible = 243,
    QueryOpen = 249,
    ReleaseForCcFlush = 250,
    AcquireForCcFlush = 251,
    ReleaseForModWrite = 252,
    AcquireForModWrite = 253,
    ReleaseForSectionSynchronization = 254,
    AcquireForSectionSynchronization = 255,
}

impl Major {
    /// The kit's number of it (`IRP_MJ_..`, as an unsigned byte).
    pub fn code(self) -> u8
        ensures { result ≡ major_code self }
    {
        self as u8
    }

    /// The one of that number; `None` where the number is no major function's, or stands for kinds
    /// of operations of their own.
    pub fn at(code: u64) -> Option<Major>
        ensures { result ≡ major_at code }
    {
        match code {
            1 => Some(Major::CreateNamedPipe),
            5 => Some(Major::QueryInformation),
            6 => Some(Major::SetInformation),
            7 => Some(Major::QueryEa),
            8 => Some(Major::SetEa),
            10 => Some(Major::QueryVolumeInformation),
            11 => Some(Major::SetVolumeInformation),
            12 => Some(Major::DirectoryControl),
            13 => Some(Major::FileSystemControl),
            14 => Some(Major::DeviceControl),
            15 => Some(Major::InternalDeviceControl),
            16 => Some(Major::Shutdown),
            17 => Some(Major::LockControl),
            19 => Some(Major::CreateMailslot),
            20 => Some(Major::QuerySecurity),
            21 => Some(Major::SetSecurity),
            22 => Some(Major::Power),
            23 => Some(Major::SystemControl),
            24 => Some(Major::DeviceChange),
            25 => Some(Major::QueryQuota),
            26 => Some(Major::SetQuota),
            27 => Some(Major::Pnp),
            236 => Some(Major::VolumeDismount),
            237 => Some(Major::VolumeMount),
            238 => Some(Major::MdlWriteComplete),
            239 => Some(Major::PrepareMdlWrite),
            240 => Some(Major::MdlReadComplete),
            241 => Some(Major::MdlRead),
            242 => Some(Major::NetworkQueryOpen),
            243 => Some(Major::FastIoCheckIfPossible),
            249 => Some(Major::QueryOpen),
            250 => Some(Major::ReleaseForCcFlush),
            251 => Some(Major::AcquireForCcFlush),
            252 => Some(Major::ReleaseForModWrite),
            253 => Some(Major::AcquireForModWrite),
            254 => Some(Major::ReleaseForSectionSynchronization),
            255 => Some(Major::AcquireForSectionSynchronization),
            _ => None,
        }
    }

    // The bit of its kind in an `OpMask`.
    pub(crate) fn bit(self) -> u64
        ensures { result ≡ major_bit self }
    {
        match self {
            Major::CreateNamedPipe => 4096,
            Major::QueryInformation => 65536,
            Major::SetInformation => 131072,
            Major::QueryEa => 262144,
            Major::SetEa => 524288,
            Major::QueryVolumeInformation => 2097152,
            Major::SetVolumeInformation => 4194304,
            Major::DirectoryControl => 8388608,
            Major::FileSystemControl => 16777216,
            Major::DeviceControl => 33554432,
            Major::InternalDeviceControl => 67108864,
            Major::Shutdown => 134217728,
            Major::LockControl => 268435456,
            Major::CreateMailslot => 1073741824,
            Major::QuerySecurity => 2147483648,
            Major::SetSecurity => 4294967296,
            Major::Power => 8589934592,
            Major::SystemControl => 17179869184,
            Major::DeviceChange => 34359738368,
            Major::QueryQuota => 68719476736,
            Major::SetQuota => 137438953472,
            Major::Pnp => 274877906944,
            Major::VolumeDismount => 288230376151711744,
            Major::VolumeMount => 144115188075855872,
            Major::MdlWriteComplete => 72057594037927936,
            Major::PrepareMdlWrite => 36028797018963968,
            Major::MdlReadComplete => 18014398509481984,
            Major::MdlRead => 9007199254740992,
            Major::NetworkQueryOpen => 4503599627370496,
            Major::FastIoCheckIfPossible => 2251799813685248,
            Major::QueryOpen => 35184372088832,
            Major::ReleaseForCcFlush => 17592186044416,
            Major::AcquireForCcFlush => 8796093022208,
            Major::ReleaseForModWrite => 4398046511104,
            Major::AcquireForModWrite => 2199023255552,
            Major::ReleaseForSectionSynchronization => 1099511627776,
            Major::AcquireForSectionSynchronization => 549755813888,
        }
    }
}
