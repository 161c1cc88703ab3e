//! Values, requests and replies, APDUs and datagrams, read and written.
pub use bac_apdu::{Apdu, ApduFault, Segment, Window, apdu_len, read, write};
pub use bac_npdu::{
    Destination, Dropped, FrameFault, Message, Npdu, read_bvll, read_datagram, read_npdu,
    write_datagram, write_frame_head,
};
pub use bac_service::{
    AnyComplex, AnyReply, AnyRequest, Complex, Reply, Request, read_reply, read_reply_parts,
    read_request, read_request_parts, reply_len, request_len, write_reply, write_request,
};
pub use bac_value::{
    Element, Fault, FaultKind, Parts, Tag, read_data, read_element, read_tag, value_of, write_data,
    write_tag, write_value,
};
