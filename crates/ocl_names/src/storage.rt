ghost use Rattle.std.specs.Prelude.{◌≡◌};
ghost use Rattle.ocl_names.specs.Storage.{storage_bits, storage_suffix, storage_of};

/// The bit of a memory semantics number for local storage: WorkgroupMemory (SPIR-V 1.2, 3.25).
const LOCAL: u32 = 0x100;

/// The bit for global storage: CrossWorkgroupMemory.
const GLOBAL: u32 = 0x200;

/// Both bits.
pub(crate) const STORAGE: u32 = 0x300;

/// Which storage an order concerns.
#[derive(Clone, Copy, Debug, PartialEq, Eq, Hash)]
pub(crate) enum Storage {
    Both,
    Local,
    Global,
    Neither,
}

pub(crate) static STORAGES: [Storage; 4] = [
    Storage::Both,
    Storage::Local,
    Storage::Global,
    Storage::Neither,
];

impl Storage {
    /// The storage of which a memory semantics number has the bits.
    pub(crate) fn of(mask: u32) -> Storage
        ensures { result ≡ storage_of mask }
    {
        match (mask & LOCAL == 0, mask & GLOBAL == 0) {
            (false, false) => Storage::Both,
            (false, true) => Storage::Local,
            (true, false) => Storage::Global,
            (true, true) => Storage::Neither,
        }
    }

    pub(crate) fn bits(self) -> u32
        ensures { result ≡ storage_bits self }
    {
        match self {
            Storage::Both => 0x300,
            Storage::Local => 0x100,
            Storage::Global => 0x200,
            Storage::Neither => 0x0,
        }
    }

    /// What a syncscope word has behind the scope.
    pub(crate) fn suffix(self) -> &'static str
        ensures { result.now ≡ storage_suffix self }
    {
        match self {
            Storage::Both => "",
            Storage::Local => "-local",
            Storage::Global => "-global",
            Storage::Neither => "-none",
        }
    }
}
