// A member's imbalance, from what was registered and what was metered.
ghost use Rattle.std.specs.Prelude.{◌≡◌};
ghost use Rattle.charging.specs.Imbalance.{imbalance};

// What a schedule or a reading may say of one quarter of an hour.
pub const ENERGY_LIMIT_KWH: u32 = 500_000;

#[derive(Clone, Copy, Default)]
pub enum Role {
    #[default]
    Producer,
    Consumer,
}

// What was registered and what was metered of one member in a quarter of an hour.
#[derive(Clone, Copy, Default)]
pub struct Position {
    pub role: Role,
    pub schedule_kwh: u32,
    pub reading_kwh: u32,
}

impl Position {
    pub fn imbalance_kwh(self) -> i64
        ensures { result ≡ imbalance self.role self.schedule_kwh self.reading_kwh }
    {
        match self.role {
            Role::Producer => i64::from(self.reading_kwh) - i64::from(self.schedule_kwh),
            Role::Consumer => i64::from(self.schedule_kwh) - i64::from(self.reading_kwh),
        }
    }
}
