//! Programs that several modules run, and their reports.

/// One output, which a loop raises in each tick.
pub const COUNTER: &[u8] = b"output int o = 0; void main(void) { while (1) { o = o + 1; pause; } }";

/// Its report over two rows without words.
pub const COUNTED: &[u8] = b"tick 1 o=1\ntick 2 o=2\nrows 2\n";

/// Two branches raise a shared output, in two ticks.
pub const ADDS: &[u8] = b"shared output int s = 1 combine all with plus;
int plus(int x, int y) { return x + y; }
void a(void) { s = s + 1; pause; }
void b(void) { s = s + 2; pause; }
void main(void) { par(a, b); }
";

/// Its report over two rows without words.
pub const ADDED: &[u8] = b"tick 1 s=5\ntick 2 s=10\nend 2\n";

/// Two sensors and two motors, each a thread, and an emergency stop.
pub const ROBOT: &[u8] = b"/* Two distance sensors, two motors, an emergency stop. */
input int left, right, stop;
shared output int motor_l = 0 combine mod with lower;
shared output int motor_r = 0 combine mod with lower;
output int alarm = 0;
shared int speed = 40 combine mod with lower;

int lower(int a, int b) {
  return a < b ? a : b;
}

// The speed that a free distance allows.
int allowed(int distance) {
  if (distance < 10) return 0;
  if (distance < 50) return distance;
  return 50;
}

void watch_left(void) {
  while (1) {
    speed = allowed(left);
    pause;
  }
}

void watch_right(void) {
  while (1) {
    speed = allowed(right);
    pause;
  }
}

void drive_left(void) {
  while (1) {
    motor_l = speed;
    pause;
  }
}

void drive_right(void) {
  while (1) {
    motor_r = speed > 20 && right < left ? speed / 2 : speed;
    pause;
  }
}

void main(void) {
  while (1) {
    abort {
      par(watch_left, watch_right, drive_left, drive_right);
    } when immediate (stop);
    alarm = alarm + 1;
    motor_l = 0;
    motor_r = 0;
    speed = 0;
    pause;
  }
}
";

/// What its sensors tell.
pub const DRIVE: &[u8] = b"left right stop
100 100 0
30 100 0
30 20 0
30 20 1
60 45 0
8 45 0
";

/// Its report over that trace.
pub const DRIVEN: &[u8] = b"tick 1 motor_l=40 motor_r=40 alarm=0
tick 2 motor_l=50 motor_r=50 alarm=0
tick 3 motor_l=30 motor_r=15 alarm=0
tick 4 motor_l=0 motor_r=0 alarm=1
tick 5 motor_l=0 motor_r=0 alarm=1
tick 6 motor_l=45 motor_r=45 alarm=1
rows 6
";
