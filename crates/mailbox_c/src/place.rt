// Where each word of a mailbox lies (include/harsolvek.h).
pub(crate) const CONNECTORS: usize = 0;

pub(crate) const SHOWN: usize = 1;

pub(crate) const WAITING: usize = 2;

pub(crate) const NOTIFICATIONS: usize = 3;

pub(crate) const MASK: usize = 4;

pub(crate) const STATUS: usize = 5;

pub(crate) const LENGTH: usize = 6;

pub(crate) const CODE: usize = 7;

pub(crate) const CONNECTOR: usize = 8;

pub(crate) const RESET_TYPE: usize = 9;
