// How each command is treated (01, The mailbox; 002, Table A-1).
ghost use Rattle.std.specs.Prelude.{◌≡◌};
ghost use Rattle.commands.specs.Table.{entry_of};

#[derive(Clone, Copy, PartialEq, Eq)]
pub enum Class {
    // PPM_RESET, CANCEL, ACK_CC_CI and SET_NOTIFICATION_ENABLE.
    Reset,
    Cancel,
    Acknowledge,
    Enable,
    // Runs until the port reports.
    Run,
    NotSupported,
}

// `connector`: whether a connector number is needed.
#[derive(Clone, Copy)]
pub struct Entry {
    pub class: Class,
    pub connector: bool,
}

const CODES: usize = 30;

// Each kind of entry has a name, so that a code takes one line of the table: a constant may call no function that would make one.
const RESET: Entry = Entry {
    class: Class::Reset,
    connector: false,
};

const CANCEL: Entry = Entry {
    class: Class::Cancel,
    connector: false,
};

const ACKNOWLEDGE: Entry = Entry {
    class: Class::Acknowledge,
    connector: false,
};

const ENABLE: Entry = Entry {
    class: Class::Enable,
    connector: false,
};

const RUN: Entry = Entry {
    class: Class::Run,
    connector: false,
};

const RUN_ON_CONNECTOR: Entry = Entry {
    class: Class::Run,
    connector: true,
};

const NOT_SUPPORTED: Entry = Entry {
    class: Class::NotSupported,
    connector: false,
};

// 0x00 to 0x1D.
const ENTRIES: [Entry; CODES] = [
    NOT_SUPPORTED, // RESERVED
    RESET, // PPM_RESET
    CANCEL, // CANCEL
    RUN_ON_CONNECTOR, // CONNECTOR_RESET
    ACKNOWLEDGE, // ACK_CC_CI
    ENABLE, // SET_NOTIFICATION_ENABLE
    RUN, // GET_CAPABILITY
    RUN_ON_CONNECTOR, // GET_CONNECTOR_CAPABILITY
    NOT_SUPPORTED, // SET_CCOM
    NOT_SUPPORTED, // SET_UOR
    NOT_SUPPORTED, // SET_PDM
    NOT_SUPPORTED, // SET_PDR
    NOT_SUPPORTED, // GET_ALTERNATE_MODES
    NOT_SUPPORTED, // GET_CAM_SUPPORTED
    NOT_SUPPORTED, // GET_CURRENT_CAM
    NOT_SUPPORTED, // SET_NEW_CAM
    NOT_SUPPORTED, // GET_PDOS
    NOT_SUPPORTED, // GET_CABLE_PROPERTY
    RUN_ON_CONNECTOR, // GET_CONNECTOR_STATUS
    NOT_SUPPORTED, // GET_ERROR_STATUS
    NOT_SUPPORTED, // SET_POWER_LEVEL
    NOT_SUPPORTED, // GET_PD_MESSAGE
    NOT_SUPPORTED, // GET_ATTENTION_VDO
    NOT_SUPPORTED, // Reserved
    NOT_SUPPORTED, // GET_CAM_CS
    NOT_SUPPORTED, // LPM_FW_UPDATE_REQUEST
    NOT_SUPPORTED, // SECURITY_REQUEST
    NOT_SUPPORTED, // SET_RETIMER_MODE
    NOT_SUPPORTED, // SET_SINK_PATH
    NOT_SUPPORTED, // SET_PDOS
];

// Codes above the table's are not supported either (01, The mailbox: "other codes").
#[tactic(auto, using(crate::proofs::Rows::above))]
pub fn look(code: u8) -> Entry
    ensures { result ≡ entry_of code }
{
    ENTRIES
        .get(usize::from(code))
        .copied()
        .unwrap_or(NOT_SUPPORTED)
}
