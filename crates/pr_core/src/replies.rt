//! Data-in, cut to its allocation length, at the front of the buffer.

ghost use Rattle.std.specs.Prelude.{◌≡◌, ◌<◌, ◌≤◌, ◌^◌, length, take};
ghost use Rattle.pr_grammar.specs.Pages.{standard_inquiry, vital_page_at, capacity_10, capacity_16, report_luns};
ghost use Rattle.pr_model.specs.Commands.{sense_data, inquiry_data, data_of};

use pr_pages::{capacity10, capacity16, inquiry, luns, page as vital_page};
use pr_sense::{write_descriptor, write_fixed};
use pr_words::{Code, Sense};

/// Copies the first `allocation` bytes of data to the front of the buffer, and says how many.
fn put(data: &[u8], allocation: usize, buf: &mut [u8]) -> usize
    requires { length data.now ≤ length buf.old }
    ensures within { result ≤ length data.now }
    ensures bytes { take result buf.new ≡ take allocation data.now }
{
    let len = data.len().min(allocation);
    buf[..len].copy_from_slice(&data[..len]);
    len
}

/// Sense data in the asked format.
pub fn write_sense(descriptor: bool, code: Code, allocation: u8, buf: &mut [u8]) -> usize
    requires room { 18 ≤ length buf.old }
    requires key { code.key < 16 }
    ensures within { result ≤ 18 }
    ensures bytes { take result buf.new ≡ take allocation (sense_data descriptor code) }
{
    let mut fixed = [0; 18];
    let mut short = [0; 8];
    let sense: &[u8] = if descriptor {
        write_descriptor(code, &mut short);
        &short
    } else {
        write_fixed(&Sense { code, info: None }, &mut fixed);
        &fixed
    };
    let len = sense.len().min(usize::from(allocation));
    buf[..len].copy_from_slice(&sense[..len]);
    len
}

/// INQUIRY data of a logical unit that is there or not: the standard ones, or a page.
pub fn write_inquiry(vital: bool, page: u8, here: bool, allocation: u16, buf: &mut [u8]) -> usize
    requires { 36 ≤ length buf.old }
    ensures within { result ≤ 36 }
    ensures bytes { take result buf.new ≡ take allocation
        (data_of (inquiry_data vital page here)) }
{
    let allocation = usize::from(allocation);
    if vital {
        write_page(page, here, allocation, buf)
    } else if page == 0 {
        write_standard(here, allocation, buf)
    } else {
        0
    }
}

/// Standard INQUIRY data.
fn write_standard(here: bool, allocation: usize, buf: &mut [u8]) -> usize
    requires { 36 ≤ length buf.old }
    ensures within { result ≤ 36 }
    ensures bytes { take result buf.new ≡ take allocation (standard_inquiry here) }
{
    let mut data = [0; 36];
    inquiry(here, &mut data);
    put(&data, allocation, buf)
}

/// A vital product data page, or nothing.
fn write_page(page: u8, here: bool, allocation: usize, buf: &mut [u8]) -> usize
    requires { 24 ≤ length buf.old }
    ensures within { result ≤ 24 }
    ensures bytes { take result buf.new ≡ take allocation (data_of (vital_page_at page here)) }
{
    let mut data = [0; 24];
    match vital_page(page, here, &mut data) {
        Some(len) => put(&data[..len], allocation, buf),
        None => 0,
    }
}

/// READ CAPACITY(10) data, which have no allocation length.
pub fn write_capacity10(blocks: u64, buf: &mut [u8]) -> usize
    requires room { 8 ≤ length buf.old }
    requires some { 1 ≤ blocks }
    requires most { blocks ≤ 2 ^ 40 }
    ensures within { result ≤ 8 }
    ensures bytes { take result buf.new ≡ capacity_10 blocks }
{
    let mut data = [0; 8];
    capacity10(blocks, &mut data);
    put(&data, data.len(), buf)
}

/// READ CAPACITY(16) data.
pub fn write_capacity16(blocks: u64, allocation: u32, buf: &mut [u8]) -> usize
    requires room { 32 ≤ length buf.old }
    requires some { 1 ≤ blocks }
    requires most { blocks ≤ 2 ^ 40 }
    ensures within { result ≤ 32 }
    ensures bytes { take result buf.new ≡ take allocation (capacity_16 blocks) }
{
    let mut data = [0; 32];
    capacity16(blocks, &mut data);
    put(&data, allocation as usize, buf)
}

/// REPORT LUNS data, or nothing.
pub fn write_luns(select: u8, allocation: u32, buf: &mut [u8]) -> usize
    requires { 16 ≤ length buf.old }
    ensures within { result ≤ 16 }
    ensures bytes { take result buf.new ≡ take allocation (data_of (report_luns select)) }
{
    let mut data = [0; 16];
    match luns(select, &mut data) {
        Some(len) => put(&data[..len], allocation as usize, buf),
        None => 0,
    }
}
