// FWVersion1 to FWVersion4 (001 T5-6, T5-18).
use saying::Said;
use wire::request::Versions;

pub(crate) fn add(said: Said, v: Versions) -> Said {
    [v.first, v.second, v.third, v.fourth]
        .iter()
        .fold(said, |said, version| said.number(u64::from(*version)))
}
