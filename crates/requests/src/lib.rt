#![tactic(auto)]
// Send requests (002, rpc_ACSendMessageEx): the type, its values with their defaults, what of its parts is kept, how
// long its section is, and the properties that a request and a section have alike.
pub mod carried;
pub mod properties;
pub mod request;
pub mod section;
pub mod signature;
pub mod text;
pub mod values;
