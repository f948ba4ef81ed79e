// What callers ask.

/// Two harts and 4 MiB.
pub const CONFIGURE: &[u8] = b"\
    PUT /machine-config HTTP/1.1\r\nContent-Length: 33\r\n\r\n\
    {\"vcpu_count\":2,\"mem_size_mib\":4}";

/// The image under `code`, a start, a snapshot before its first step, and what it is then.
pub const START_AND_SAVE: &[u8] = b"\
    PUT /boot-source HTTP/1.1\r\nContent-Length: 28\r\n\r\n\
    {\"kernel_image_path\":\"code\"}\
    PUT /actions HTTP/1.1\r\nContent-Length: 31\r\n\r\n\
    {\"action_type\":\"InstanceStart\"}\
    PATCH /vm HTTP/1.1\r\nContent-Length: 18\r\n\r\n\
    {\"state\":\"Paused\"}\
    PUT /snapshot/create HTTP/1.1\r\nContent-Length: 41\r\n\r\n\
    {\"snapshot_path\":\"s\",\"mem_file_path\":\"m\"}\
    PATCH /vm HTTP/1.1\r\nContent-Length: 19\r\n\r\n\
    {\"state\":\"Resumed\"}\
    GET / HTTP/1.1\r\n\r\n";

/// The image under `code`, and a start.
pub const START: &[u8] = b"\
    PUT /boot-source HTTP/1.1\r\nContent-Length: 28\r\n\r\n\
    {\"kernel_image_path\":\"code\"}\
    PUT /actions HTTP/1.1\r\nContent-Length: 31\r\n\r\n\
    {\"action_type\":\"InstanceStart\"}";

/// The snapshot is loaded, and stands still.
pub const LOAD: &[u8] = b"\
    PUT /snapshot/load HTTP/1.1\r\nContent-Length: 41\r\n\r\n\
    {\"snapshot_path\":\"s\",\"mem_file_path\":\"m\"}";

/// The image under `disk`, with the drive `root`, and a start.
pub const START_WITH_A_DISK: &[u8] = b"\
    PUT /machine-config HTTP/1.1\r\nContent-Length: 33\r\n\r\n\
    {\"vcpu_count\":1,\"mem_size_mib\":4}\
    PUT /boot-source HTTP/1.1\r\nContent-Length: 28\r\n\r\n\
    {\"kernel_image_path\":\"disk\"}\
    PUT /drives/root HTTP/1.1\r\nContent-Length: 89\r\n\r\n\
    {\"drive_id\":\"root\",\"path_on_host\":\"drive\",\"is_root_device\":true,\"cache_type\":\"Writeback\"}\
    PUT /actions HTTP/1.1\r\nContent-Length: 31\r\n\r\n\
    {\"action_type\":\"InstanceStart\"}";
