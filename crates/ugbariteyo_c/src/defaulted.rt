// The defaulted properties of a send request: a struct that holds a slice does not cross.
ghost use Rattle.std.specs.Prelude.{◌≡◌};
ghost use Rattle.requests.specs.Request.{lent_request};
ghost use Rattle.ugbariteyo.specs.Defaulted.{defaulted_answer};
ghost use Rattle.ugbariteyo.specs.Request.{request_of};

use ugbariteyo::defaulted::UgbDefaulted;
use ugbariteyo::request::UgbRequest;

#[unsafe(no_mangle)]
pub extern "C" fn ugb_defaulted_positional(
    request: UgbRequest,
    title: &[u16],
    sender_id: &[u8],
    encryption_key: &[u8],
    signature: &[u8],
    sender_cert: &[u8],
    provider_name: &[u16],
    extension: &[u8],
    body: &[u8],
) -> UgbDefaulted
    ensures { result ≡ defaulted_answer (lent_request (request_of request) title sender_id encryption_key
        signature sender_cert provider_name extension body) }
{
    ugbariteyo::defaulted::ugb_defaulted_positional(
        request,
        title,
        sender_id,
        encryption_key,
        signature,
        sender_cert,
        provider_name,
        extension,
        body,
    )
}
