// What every refusal tells: its code in the table of codes, and its place.
ghost use Rattle.std.specs.Prelude.{◌≡◌, ℕ};

pub trait Refusal {
    ghost code_of: { Self → ℕ };

    ghost place_of: { Self → ℕ };

    fn code(self) -> u32
        ensures { result ≡ code_of self };

    fn place(self) -> usize
        ensures { result ≡ place_of self };
}
