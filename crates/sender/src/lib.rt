#![tactic(auto)]
// A send request written as a section, for C. The sender is compiled by itself: the section writer and a request's steps
// then have one caller in it and one in `ugbariteyo`, and become part of each.
ghost use Rattle.std.specs.Prelude.{◌≡◌};
ghost use Rattle.requests.specs.Request.{lent_request};
ghost use Rattle.sending.specs.Send.{send_bytes};
ghost use Rattle.ugbariteyo.specs.Request.{request_of};
ghost use Rattle.ugbariteyo.specs.Send.{sent};

use requests::request::{Request, RequestGiven};
use sending::send::send;
use ugbariteyo::request::UgbRequest;
use ugbariteyo::send::{UgbSent, sent_answer};

// (C's parameters: a struct that holds a slice does not cross.)
#[unsafe(no_mangle)]
pub extern "C" fn ugb_send_positional(
    request: UgbRequest,
    title: &[u16],
    sender_id: &[u8],
    encryption_key: &[u8],
    signature: &[u8],
    sender_cert: &[u8],
    provider_name: &[u16],
    extension: &[u8],
    body: &[u8],
    out: &mut [u8],
) -> UgbSent
    ensures value { result ≡ sent (lent_request (request_of request) title sender_id encryption_key
        signature sender_cert provider_name extension body) out.old }
    ensures out_after { out.new ≡ send_bytes (lent_request (request_of request) title sender_id encryption_key
        signature sender_cert provider_name extension body) out.old }
{
    let given = RequestGiven {
        request: Request::from(request),
        title,
        sender_id,
        encryption_key,
        signature,
        sender_cert,
        provider_name,
        extension,
        body,
    };
    let first = given.security_first();
    let output = send(&given, out);
    sent_answer(output, first)
}
