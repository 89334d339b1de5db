// What a session was started with (01, Sizes and numbers).
use silence::Settings;
use wire::request::Versions;

// The file's vendor, product and four versions.
#[derive(Clone, Copy)]
pub struct Release {
    pub vendor: u16,
    pub product: u16,
    pub versions: Versions,
}

// `length` is the file's, in bytes. It is cast where a slice's length is held against it: there is no From between u32 and usize.
#[derive(Clone, Copy)]
pub struct Plan {
    pub settings: Settings,
    pub release: Release,
    pub length: u32,
}
