// The public readers of a DEX file, its whole check, and the types of their answers: each takes a lent file of any bytes and checks for itself.
#![tactic(auto)]

pub use annotation_directories::{DirectoryEntry, DirectoryHead};
pub use annotation_items::Summary;
pub use class_data::Counts;
pub use class_ids::Class;
pub use class_members::Member;
pub use class_readers::{class_data, member, member_flags};
pub use code_bodies::Try;
pub use code_heads::CodeHead;
pub use code_item::{HandlerOutline, NumberedTry, Outline};
pub use code_readers::{code, covering_try, handler, handler_count, handler_pair, try_item, units};
pub use debug_info::DebugOutline;
pub use debug_readers::{debug, debug_parameter, line_program};
pub use decoded_value::Value;
pub use directory_readers::{directory, field_entry, method_entry, parameter_entry};
pub use handlers::Pair;
pub use header::{Header, Table};
pub use ids::{Handle, MemberId, Proto};
pub use map_list::MapEntry;
pub use refusal::Refusal;
pub use set_readers::{
    class_annotation_count, class_annotation_place, field_annotation_count, field_annotation_place,
    method_annotation_count, method_annotation_place, parameter_annotation_count,
    parameter_annotation_place, parameter_set_count,
};
pub use static_fields::{StaticField, WrongKind, static_field, wrong_kind};
pub use table_readers::{
    class, class_flags, field, find_string, handle, handle_count, header, interface,
    interface_count, map_count, map_entry, method, parameter, parameter_count, proto, signature,
    string, string_bytes, type_name,
};
pub use text::TextPlace;
pub use value_bodies::Element;
pub use value_readers::{
    ArrayOutline, BodyOutline, annotation, annotation_body, annotation_body_element,
    annotation_element, array, array_value, static_value, static_value_count,
};
pub use whole_check::check;
pub use word::Endian;
