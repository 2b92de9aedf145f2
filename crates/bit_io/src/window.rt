ghost use Rattle.std.specs.Prelude.{◌≡◌, ◌+◌, ◌-◌, ◌*◌, ◌%◌, ◌^◌, ◌<◌, ◌≤◌, ◌↔◌, IsTrue, length};
ghost use Rattle.bit_io.specs.Bits.{zeros};
ghost use Rattle.bit_io.specs.inner.Window.{IsLoaded, IsReady, highest, bits_left};

/// The next bits of a slice.
#[derive(Drop)]
pub struct Window {
    /// The first byte that isn't loaded.
    pub at: usize,
    /// The loaded bits, from the highest on, and zeros behind them.
    pub word: u64,
    /// How many bits are loaded.
    pub count: u32,
}

/// Loads bytes until 32 bits are there, or all that are left.
pub fn refill(bytes: &[u8], window: Window) -> Window
    requires { IsLoaded bytes.now window.at window.word window.count }
    ensures loaded { IsLoaded bytes.now result.at result.word result.count }
    ensures ready { IsReady bytes.now result.at result.count }
    ensures left { bits_left bytes.now result.at result.word result.count
        ≡ bits_left bytes.now window.at window.word window.count }
    ensures place { 8 * result.at - result.count ≡ 8 * window.at - window.count }
{
    if window.count >= 32 {
        return window;
    }
    if bytes.len() - window.at < 4 {
        return last_bytes(bytes, window);
    }
    load_word(bytes, window)
}

fn load_word(bytes: &[u8], window: Window) -> Window
    requires loaded { IsLoaded bytes.now window.at window.word window.count }
    requires free { window.count < 32 }
    requires there { window.at + 4 ≤ length bytes.now }
    ensures loaded { IsLoaded bytes.now result.at result.word result.count }
    ensures ready { 32 ≤ result.count }
    ensures left { bits_left bytes.now result.at result.word result.count
        ≡ bits_left bytes.now window.at window.word window.count }
    ensures place { 8 * result.at - result.count ≡ 8 * window.at - window.count }
{
    let at = window.at;
    let next = u32::from_be_bytes([bytes[at], bytes[at + 1], bytes[at + 2], bytes[at + 3]]);
    Window {
        at: at + 4,
        word: window.word | u64::from(next) << (32 - window.count),
        count: window.count + 32,
    }
}

fn last_bytes(bytes: &[u8], window: Window) -> Window
    requires loaded { IsLoaded bytes.now window.at window.word window.count }
    requires free { window.count < 32 }
    requires few { length bytes.now - window.at < 4 }
    ensures loaded { IsLoaded bytes.now result.at result.word result.count }
    ensures ready { result.at ≡ length bytes.now }
    ensures left { bits_left bytes.now result.at result.word result.count
        ≡ bits_left bytes.now window.at window.word window.count }
    ensures place { 8 * result.at - result.count ≡ 8 * window.at - window.count }
{
    let mut window = window;
    while window.at < bytes.len() {
        window = load_byte(bytes, window);
    }
    window
}

fn load_byte(bytes: &[u8], window: Window) -> Window
    requires loaded { IsLoaded bytes.now window.at window.word window.count }
    requires free { window.count ≤ 56 }
    requires there { window.at < length bytes.now }
    ensures loaded { IsLoaded bytes.now result.at result.word result.count }
    ensures at { result.at ≡ window.at + 1 }
    ensures count { result.count ≡ window.count + 8 }
    ensures left { bits_left bytes.now result.at result.word result.count
        ≡ bits_left bytes.now window.at window.word window.count }
{
    Window {
        at: window.at + 1,
        word: window.word | u64::from(bytes[window.at]) << (56 - window.count),
        count: window.count + 8,
    }
}

/// Whether all loaded bits are zero.
pub fn is_zero(word: u64, count: u32) -> bool
    requires room { count ≤ 64 }
    requires behind { word % 2 ^ (64 - count) ≡ 0 }
    ensures { IsTrue result ↔ (highest count word ≡ zeros count) }
{
    word == 0
}
