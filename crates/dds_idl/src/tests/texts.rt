//! Texts, and values that a peer wrote of their types.

/// The final types of the texts that the values are of, which `idlc` of Cyclone DDS 0.10.2 takes.
pub const PEER: &str = "module m {
  enum Color { RED, GREEN, BLUE };
  @final struct Inner { @key long id; float f; };
  @final struct Num { octet o; double d; octet o2; long long ll; short s; float f;
    @key unsigned long long k; };
  @final struct N { short p; long long q; };
  @final struct K1 { @key long a; @key unsigned long long b; };
  @final struct K3 { @key N n; long v; };
  @final struct K4 { long v; @key Inner i; };
  @final struct K5 { @key string<3> s; };
  @final struct EnumSeq { sequence<Color> c; Color ar[2]; sequence<boolean> b; boolean f;
    long after; sequence<sequence<octet>> ss; };
  @final struct Emp { sequence<long> a; sequence<string> b; string s; };
};
";

/// Values that Cyclone DDS 0.10.2 wrote of these types, in versions 1 and 2, with the
/// encapsulation header.
pub const VALUES: [(&str, &str); 12] = [
    (
        "m::Num",
        "000100000100000000000000000000000000f83f0000000000000000feffffffffffffff03000000000000bf\
         0102000000000000",
    ),
    (
        "m::Num",
        "0007000001000000000000000000f83f00000000feffffffffffffff03000000000000bf0102000000000000",
    ),
    ("m::K1", "0001000001000000000000000200000000000000"),
    ("m::K1", "00070000010000000200000000000000"),
    ("m::K3", "000100000100000000000000020000000000000003000000"),
    ("m::K3", "0007000001000000020000000000000003000000"),
    ("m::K4", "0001000001000000070000000000c03f"),
    ("m::K5", "000100010300000061620000"),
    (
        "m::EnumSeq",
        "00010000020000000100000002000000000000000200000003000000010001010900000002000000030000000102\
         030000000000",
    ),
    (
        "m::EnumSeq",
        "000700000c0000000200000001000000020000000800000000000000020000000300000001000101090000001000\
         000002000000030000000102030000000000",
    ),
    ("m::Emp", "0001000300000000000000000100000000000000"),
    ("m::Emp", "000700030000000004000000000000000100000000000000"),
];

/// Types in the style of ROS 2, in an order in which each is declared before it is used.
pub const ROBOT: [(&str, &str); 3] = [
    (
        "share/std_msgs/msg/Header.idl",
        "// generated
module builtin_interfaces { module msg { module dds_ {
  @verbatim (language=\"comment\", text=\"seconds (\" \"and more\")
  struct Time_ { int32 sec; @unit(value=\"ns\") uint32 nanosec; };
}; }; };
module std_msgs { module msg { module dds_ {
  struct String_ { string data; };
  struct Header_ { builtin_interfaces::msg::dds_::Time_ stamp; string frame_id; };
}; }; };
",
    ),
    (
        "geometry.idl",
        "#include <std_msgs/msg/Header.idl>
module geometry_msgs { module msg { module dds_ {
  struct Vector3_ { double x; double y; double z; };
  struct Point_ { double x, y, z; };
  struct Quaternion_ { double x; double y; double z; double w; };
  struct Pose_ { Point_ position; dds_::Quaternion_ orientation; };
  typedef double double__36[36];
  struct PoseWithCovariance_ { msg::dds_::Pose_ pose; double__36 covariance; };
  struct Transform_ { Vector3_ translation; Quaternion_ rotation; };
  struct TransformStamped_ { ::std_msgs::msg::dds_::Header_ header; string child_frame_id;
    Transform_ transform; };
}; }; };
",
    ),
    (
        "sensor.idl",
        "#include \"geometry.idl\"
module sensor_msgs { module msg { module dds_ {
  module Image_Constants { const uint32 ROWS = 0x10; };
  struct Image_ { std_msgs::msg::dds_::Header_ header; uint32 height; uint32 width;
    string<Image_Constants::ROWS> encoding; octet is_bigendian; uint32 step;
    sequence<octet> data; };
  struct LaserScan_ { std_msgs::msg::dds_::Header_ header; float angle_min; float angle_max;
    sequence<float, 1080> ranges; sequence<float> intensities; };
}; }; };
module tf2_msgs { module msg { module dds_ {
  struct TFMessage_ { sequence<geometry_msgs::msg::dds_::TransformStamped_> transforms; };
}; }; };
",
    ),
];
