//! Capture files of Ethernet: classic pcap, as tcpdump writes it by `-w`, read and written.
//!
//! [`read_head`] takes the header of a file from a source, and then [`next_record`] one record
//! after the other, until [`Record::End`]. [`write_head`] and [`write_record`] make the bytes of a file.
//!
//! Either byte order is read, with times in microseconds or nanoseconds; pcapng isn't, nor another
//! link type than Ethernet. No call takes memory, whatever length a file claims.
//!
//! Promised: `read_head` and `next_record` take what `IsCapture` says, in either byte order, and
//! refuse a header that is none (`BeginsNoHead`) or a record that is cut or claims too much
//! (`IsCut`); a whole record never is (`record_begins_no_cut_capture`). A file has one header and
//! one list of packets (`capture_has_one_list_of_packets`). A packet is whole, short, or too long
//! for a frame, by its two lengths (`kind`). What `write_head` and `write_record` make reads back
//! as these frames (`written_capture_reads_back`). A fault of the source comes only if its count
//! rose.
//!
//! Only tested: files of each form, and the texts of refusals (`aoe_program_tests`, pcap); files of
//! tcpdump and tshark (tests/check, tests/audit). No clause says that no call takes memory.
#![tactic(auto)]

mod head;
mod laws;
mod reader;
mod writer;

pub use head::{Head, read_head};
pub use laws::{
    capture_has_one_list_of_packets, record_begins_no_cut_capture, written_capture_reads_back,
};
pub use reader::{PcapRefusal, Record, next_record};
pub use writer::{RecordBytes, write_head, write_record};
