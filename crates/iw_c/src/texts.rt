//! Words for codes and faults. No clause says which address it is that C is told; what stands there ends with an octet 0
//! (`iw_codes::text_of`, `iw_codes::fault_text`).
use iw_codes::{fault_text, text_of};
use std::ptr::{NonNull, null_mut};

// The address of the first octet of a text, which stays there.
fn address(text: &'static [u8]) -> *mut u8 {
    match text.first() {
        Some(first) => NonNull::from_ref(first).as_ptr(),
        None => null_mut(),
    }
}

/// Tells where the text stands that says what a code means, a C string.
#[unsafe(no_mangle)]
pub extern "C" fn iwarp_text_at(code: i32, text: &mut *mut u8) {
    *text = match u32::try_from(code) {
        Ok(code) => address(text_of(code)),
        Err(_) => address(text_of(u32::MAX)),
    };
}

/// Tells where the text stands that says what a fault means, in the names of the RFCs, a C string.
#[unsafe(no_mangle)]
pub extern "C" fn iwarp_fault_text_at(layer: u32, error: u32, code: u32, text: &mut *mut u8) {
    *text = address(fault_text(layer, error, code));
}
