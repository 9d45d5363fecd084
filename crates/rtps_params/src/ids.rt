//! The ids of parameters (DDSI-RTPS 9.6.4).

/// `PID_PAD`: padding, which is skipped.
pub const PAD: u16 = 0x0000;

/// `PID_SENTINEL`: the end of the list; its length is ignored.
pub const SENTINEL: u16 = 0x0001;

/// `PID_PARTICIPANT_LEASE_DURATION`.
pub const PARTICIPANT_LEASE_DURATION: u16 = 0x0002;

/// `PID_TOPIC_NAME`.
pub const TOPIC_NAME: u16 = 0x0005;

/// `PID_TYPE_NAME`.
pub const TYPE_NAME: u16 = 0x0007;

/// `PID_RELIABILITY`.
pub const RELIABILITY: u16 = 0x001a;

/// `PID_LIVELINESS`.
pub const LIVELINESS: u16 = 0x001b;

/// `PID_DURABILITY`.
pub const DURABILITY: u16 = 0x001d;

/// `PID_OWNERSHIP`.
pub const OWNERSHIP: u16 = 0x001f;

/// `PID_PRESENTATION`.
pub const PRESENTATION: u16 = 0x0021;

/// `PID_DEADLINE`.
pub const DEADLINE: u16 = 0x0023;

/// `PID_DESTINATION_ORDER`.
pub const DESTINATION_ORDER: u16 = 0x0025;

/// `PID_LATENCY_BUDGET`.
pub const LATENCY_BUDGET: u16 = 0x0027;

/// `PID_PARTITION`.
pub const PARTITION: u16 = 0x0029;

/// `PID_UNICAST_LOCATOR`.
pub const UNICAST_LOCATOR: u16 = 0x002f;

/// `PID_DEFAULT_UNICAST_LOCATOR`.
pub const DEFAULT_UNICAST_LOCATOR: u16 = 0x0031;

/// `PID_METATRAFFIC_UNICAST_LOCATOR`.
pub const METATRAFFIC_UNICAST_LOCATOR: u16 = 0x0032;

/// `PID_PARTICIPANT_GUID`.
pub const PARTICIPANT_GUID: u16 = 0x0050;

/// `PID_BUILTIN_ENDPOINT_SET`.
pub const BUILTIN_ENDPOINT_SET: u16 = 0x0058;

/// `PID_ENDPOINT_GUID`.
pub const ENDPOINT_GUID: u16 = 0x005a;

/// `PID_KEY_HASH`: the key hash of the change's instance.
pub const KEY_HASH: u16 = 0x0070;

/// `PID_STATUS_INFO`: the state of the change's instance.
pub const STATUS_INFO: u16 = 0x0071;
